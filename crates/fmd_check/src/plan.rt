// Offsets and sizes of the sections, and row 58.
ghost use Rattle.std.specs.Prelude.{[], ◌≡◌, ◌+◌, ◌-◌, ◌≤◌, ◌<◌, drop, get_or};
ghost use Rattle.fmd_table.specs.Table.{sections_in, placed_in, HasRows, HasSpots};
ghost use Rattle.fmd_table.specs.Invariants.{Linked};
ghost use Rattle.fmd_parse.specs.Trees.{blank_section};
ghost use Rattle.fmd_check.specs.Plans.{sibling_end, room_of, start_of, fits, spot_of, spot_in, spot_for, resolve_from, resolved_by};

use fmd_parse::rows::Reach;
use fmd_table::{ParentOffset, Placed, Section, SectionRow, placed_at, put_placed, row_at};

// Why a section has no place.
#[derive(Clone, Copy)]
pub enum Misfit {
    Unfit,
    NoSize,
}

// The first section that has no place, and why.
#[derive(Clone, Copy)]
pub struct Unplaced {
    pub at: usize,
    pub why: Misfit,
}

// The end of the last section with the parent, sought from the last row back.
fn end_in(spots: &[Placed], k: usize, parent: u32) -> u64
    requires { HasSpots k spots.now }
    ensures { (result ≡ sibling_end parent 0 (placed_in k spots.now)) × (result ≤ 8589934590) }
{
    for j in (0..k).rev() {
        let q = placed_at(spots, j);
        if q.parent == parent {
            return q.offset.0 as u64 + q.size as u64;
        }
    }
    0
}

// The parent's size.
fn room_of(spots: &[Placed], k: usize, parent: u32, size: u32) -> u32
    requires { HasSpots k spots.now }
    ensures { result ≡ room_of size parent (placed_in k spots.now) }
{
    let i = parent as usize;
    if i < k {
        return placed_at(spots, i).size;
    }
    size
}

fn start_of(o: Option<ParentOffset>, e: u64) -> u64
    requires { e ≤ 8589934590 }
    ensures { (result ≡ start_of o e) × (result ≤ 8589934590) }
{
    match o {
        Some(n) => n.0 as u64,
        None => e,
    }
}

fn fits(e: u64, start: u64, size: u64, room: u32) -> bool
    requires { (start ≤ 8589934590) × (size ≤ 4294967295) }
    ensures { result ≡ fits e start size room }
{
    1 <= size && e <= start && start + size <= room as u64
}

// The section at start, of size bytes, after a sibling that ends at e.
fn spot_of(h: Section, e: u64, start: u64, size: u64, room: u32) -> Result<Placed, Misfit>
    requires { (start ≤ 8589934590) × (size ≤ 4294967295) }
    ensures { result ≡ spot_of h e start size room }
{
    if !fits(e, start, size, room) {
        return Err(Misfit::Unfit);
    }
    Ok(Placed {
        offset: ParentOffset(start as u32),
        size: size as u32,
        parent: h.parent,
        level: h.level,
    })
}

fn spot_in(h: Section, e: u64, room: u32, reach: Reach) -> Result<Placed, Misfit>
    requires { e ≤ 8589934590 }
    ensures { result ≡ spot_in h e room reach }
{
    let start = start_of(h.offset, e);
    match reach {
        Reach::OfSize(n) => spot_of(h, e, start, n as u64, room),
        Reach::UpTo(o) => spot_of(h, e, start, (o.0 as u64).saturating_sub(start), room),
        Reach::ToParentEnd => spot_of(h, e, start, (room as u64).saturating_sub(start), room),
        Reach::Undecided => Err(Misfit::NoSize),
    }
}

// Section k.
fn place_at(
    rows: &[SectionRow],
    n: usize,
    k: usize,
    spots: &[Placed],
    size: u32,
) -> Result<Placed, Misfit>
    requires { HasRows n rows.now × HasSpots n spots.now × (k < n) × Linked n rows.now }
    ensures { result ≡ spot_for size (placed_in k spots.now) (get_or (sections_in n rows.now) k blank_section)
        (drop (k + 1) (sections_in n rows.now)) }
{
    let h = row_at(rows, k);
    let e = end_in(spots, k, h.parent);
    let room = room_of(spots, k, h.parent, size);
    let reach = fmd_parse::rows::reach_of(rows, n, k, h);
    spot_in(h, e, room, reach)
}

// Offsets and sizes of the sections of an image of size bytes.
pub fn resolve(
    rows: &[SectionRow],
    n: usize,
    size: u32,
    spots: &mut [Placed],
) -> Result<(), Unplaced>
    requires { HasRows n rows.now × HasSpots n spots.old × Linked n rows.now }
    ensures { resolved_by result (placed_in n spots.new) ≡ resolve_from size [] (sections_in n rows.now) }
{
    for k in 0..n {
        match place_at(rows, n, k, spots, size) {
            Ok(q) => put_placed(spots, k, q),
            Err(why) => return Err(Unplaced { at: k, why }),
        }
    }
    Ok(())
}
