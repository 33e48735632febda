#![tactic(auto)]

// All refusals of a layout text, in their order: 50, the first fault in the text, then 54, 56, 57, 58 and 59 over the whole list; the sections as areas.
// The sections and their places stand in two lent tables, in the first n rows; places are written while sections are read, so no struct lends both.
// An inner crate: no user calls it, so its functions may have a `requires`, which each caller meets.
ghost use Rattle.std.specs.Prelude.{List, [], ◌≡◌, ℕ, ◌+◌, ◌<◌, Some};
ghost use Rattle.fmd_head.specs.Refusals.{number_of};
ghost use Rattle.fmd_table.specs.Table.{section_at, sections_in, placed_in, HasRows, HasSpots};
ghost use Rattle.fmd_table.specs.Invariants.{Linked};
ghost use Rattle.fmd_parse.specs.Invariants.{Inside};
ghost use Rattle.fmd_check.specs.Plans.{unfit, plan, resolve_from};
ghost use Rattle.fmd_check.specs.Fitted.{Sized};
ghost use Rattle.fmd_check.specs.Check.{fault, verdict_of, no_map, check_text};
ghost use Rattle.fmd_check.specs.Invariants.{check_from};

use crate::plan::Misfit;
use fmd_head::{Refusal, TextFault, TextImage};
use fmd_table::{Placed, SectionRow, placed_at, row_at};

pub mod areas; // areas.rt: the sections as areas of a map
mod plan; // plan.rt: offsets and sizes of the sections

// Why a layout text is refused, and where the fault stands in it, if it does.
#[derive(Clone, Copy)]
pub struct LayoutFault {
    pub refusal: Refusal,
    pub place: Option<usize>,
}

impl From<TextFault> for LayoutFault {
    ghost from_gives = { λ f r. r ≡ record { refusal = f.refusal; place = Some f.place } };

    fn from(f: TextFault) -> LayoutFault {
        LayoutFault {
            refusal: f.refusal,
            place: Some(f.place),
        }
    }
}

// A layout that is not refused: the image, how many sections there are, and the index of section FMAP.
#[derive(Clone, Copy)]
pub struct GoodLayout {
    pub image: TextImage,
    pub count: usize,
    pub map: usize,
}

// A fault at the name of section k.
fn fault_at(refusal: Refusal, rows: &[SectionRow], k: usize) -> LayoutFault
    requires { HasRows (k + 1) rows.now }
    ensures { result ≡ record { refusal = refusal; place = Some (section_at rows.now k).place } }
{
    LayoutFault {
        refusal,
        place: Some(row_at(rows, k).place as usize),
    }
}

// Section k has children, or is too small for a map.
fn no_map(rows: &[SectionRow], spots: &[Placed], n: usize, k: usize) -> bool
    requires { HasRows n rows.now × HasSpots n spots.now × Linked n rows.now × (k < n) }
    ensures { result ≡ no_map (sections_in n rows.now) (placed_in n spots.now) (Some k) }
{
    if fmd_parse::rows::has_child(rows, n, k) {
        return true;
    }
    (placed_at(spots, k).size as usize) < 56 + 42 * n
}

// Row 59.
fn check_map(
    text: &[u8],
    image: TextImage,
    rows: &[SectionRow],
    spots: &[Placed],
    n: usize,
) -> Result<GoodLayout, LayoutFault>
    requires { HasRows n rows.now × HasSpots n spots.now × Linked n rows.now × Inside text.now (sections_in n rows.now) }
    ensures { verdict_of result rows.now spots.now
        ≡ check_from 4 text.now image (sections_in n rows.now) (plan (placed_in n spots.now)) }
{
    let Some(map) = fmd_parse::rows::find_fmap(text, rows, n) else {
        return Err(LayoutFault {
            refusal: Refusal::NoMapSection,
            place: None,
        });
    };
    if no_map(rows, spots, n, map) {
        return Err(fault_at(Refusal::NoMapSection, rows, map));
    }
    Ok(GoodLayout {
        image,
        count: n,
        map,
    })
}

// Rows 57 and 58, where section k is the first that does not fit.
fn unfit_at(rows: &[SectionRow], n: usize, k: usize) -> LayoutFault
    requires { HasRows n rows.now × (k < n) × Sized (sections_in n rows.now) (k + 1) × Linked n rows.now }
    ensures { (s : List ℕ) (i : TextImage) (spots : List Placed) → fault (number_of result.refusal) result.place
        ≡ check_from 2 s i (sections_in n rows.now) (unfit k) }
{
    match fmd_parse::rows::first_undecided(rows, n, k + 1) {
        Some(j) => fault_at(Refusal::Undecided, rows, j),
        None => fault_at(Refusal::Unfit, rows, k),
    }
}

// Rows 54 to 59.
fn check_list(
    text: &[u8],
    image: TextImage,
    rows: &[SectionRow],
    spots: &mut [Placed],
    n: usize,
) -> Result<GoodLayout, LayoutFault>
    requires { HasRows n rows.now × HasSpots n spots.old × Linked n rows.now × Inside text.now (sections_in n rows.now) }
    ensures { verdict_of result rows.now spots.new
        ≡ check_from 0 text.now image (sections_in n rows.now) (resolve_from image.size [] (sections_in n rows.now)) }
{
    if let Some(k) = fmd_parse::rows::first_repeat(text, rows, n) {
        return Err(fault_at(Refusal::NameTwice, rows, k));
    }
    if let Some(k) = fmd_parse::rows::first_cbfs(rows, n) {
        return Err(fault_at(Refusal::BadFlag, rows, k));
    }
    match plan::resolve(rows, n, image.size, spots) {
        Ok(()) => check_map(text, image, rows, spots, n),
        Err(u) => match u.why {
            Misfit::Unfit => Err(unfit_at(rows, n, u.at)),
            Misfit::NoSize => Err(fault_at(Refusal::Undecided, rows, u.at)),
        },
    }
}

// Image, sections and their places of a layout text, or its first fault.
pub fn check(
    text: &[u8],
    rows: &mut [SectionRow],
    spots: &mut [Placed],
) -> Result<GoodLayout, LayoutFault>
    requires { HasRows 129 rows.old × HasSpots 128 spots.old }
    ensures { verdict_of result rows.new spots.new ≡ check_text text.now }
{
    if 32768 < text.len() {
        return Err(LayoutFault {
            refusal: Refusal::TooLong,
            place: None,
        });
    }
    let t = fmd_parse::read_layout(text, rows)?;
    check_list(text, t.image, rows, spots, t.count)
}
