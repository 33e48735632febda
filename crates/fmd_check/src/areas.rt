// The sections of a layout as areas of a map: position in the image, size, flags, name.
ghost use Rattle.std.specs.Prelude.{List, map, ◌≡◌, ℕ, ◌+◌, ◌*◌, ◌≤◌, ◌<◌, length, get_or};
ghost use Rattle.octets.specs.Bytes.{put, flat};
ghost use Rattle.fmap_rules.specs.Map.{blank_area};
ghost use Rattle.fmap_rules.specs.Written.{area_bytes};
ghost use Rattle.fmap_rules.specs.declared.Area.{Area};
ghost use Rattle.fmd_table.specs.Table.{sections_in, placed_in, HasSpots};
ghost use Rattle.fmd_check.specs.Areas.{position_in, stored_name, area_from, layout_areas};
ghost use Rattle.fmd_check.specs.Invariants.{Climbs, Laid};

use fmap_rules::{Area, Extent, ImagePosition};
use fmap_write::put_area;
use fmd_table::{Placed, Section, SectionRow, placed_at, row_at};
use std::marker::Model;

// The position of section k of n, of a level: its offset plus its parent's position. Level 0 is the image.
fn position(spots: &[Placed], n: usize, k: usize, level: u32) -> ImagePosition
    requires { HasSpots n spots.now × Climbs level (placed_in n spots.now) k × (position_in level (placed_in n spots.now) k ≤ 4294967295) }
    ensures { result.0 ≡ position_in level (placed_in n spots.now) k }
{
    if level == 0 {
        return ImagePosition(0);
    }
    let q = placed_at(spots, k);
    let up = position(spots, n, q.parent as usize, level - 1);
    ImagePosition(q.offset.0 + up.0)
}

// A name of the text as a map holds it.
pub fn stored_name(text: &[u8], place: u32, size: u32) -> [u8; 32]
    requires { (place + size ≤ length text.now) × (size ≤ 32) }
    ensures { result ≡ stored_name text.now place size }
{
    let mut name = [0u8; 32];
    let from = place as usize;
    octets::copy(&mut name, 0, &text[from..from + size as usize]);
    name
}

// The area of a section h that lies at a position.
fn area_from(text: &[u8], h: Section, q: Placed, at: ImagePosition) -> Area
    requires { (h.place + h.length ≤ length text.now) × (h.length ≤ 32) }
    ensures { result ≡ area_from text.now h q at.0 }
{
    let name = stored_name(text, h.place, h.length);
    let flags: u16 = if h.preserve { 8 } else { 0 };
    Area {
        place: Extent {
            start: at,
            size: q.size,
        },
        name,
        flags,
    }
}

// The areas of the sections of a text, which stand in the first rows of two tables; each is made when it is due.
#[derive(Drop)]
pub struct Areas<'a> {
    text: &'a [u8],
    rows: &'a [SectionRow],
    spots: &'a [Placed],
    count: usize,
}

impl<'a> Model for Areas<'a> {
    ghost Value = { List Area };

    ghost view = { λ a. layout_areas a.text.now (sections_in a.count a.rows.now) (placed_in a.count a.spots.now) };

    ghost invariant = { λ a. Laid a.text.now a.rows.now a.spots.now a.count };
}

impl<'a> Areas<'a> {
    pub fn new(
        text: &'a [u8],
        rows: &'a [SectionRow],
        spots: &'a [Placed],
        count: usize,
    ) -> Areas<'a>
        requires { Laid text.now rows.now spots.now count }
        ensures { result ≡ layout_areas text.now (sections_in count rows.now) (placed_in count spots.now) }
    {
        Areas {
            text,
            rows,
            spots,
            count,
        }
    }

    pub fn count(&self) -> usize
        ensures { result ≡ length self.now }
    {
        self.count
    }

    // The area of section k.
    pub fn at(&self, k: usize) -> Area
        requires { k < length self.now }
        ensures { result ≡ get_or self.now k blank_area }
    {
        let h = row_at(self.rows, k);
        let q = placed_at(self.spots, k);
        let at = position(self.spots, self.count, k, q.level);
        area_from(self.text, h, q, at)
    }

    // The bytes of all areas, one after the other.
    pub fn put(&self, to: &mut [u8], at: usize)
        requires { at + 42 * length self.now ≤ length to.old }
        ensures { to.new ≡ put at (flat (map area_bytes self.now)) to.old }
    {
        for k in 0..self.count() {
            put_area(to, at + 42 * k, self.at(k));
        }
    }
}
