// The rows of the whole section list that the text alone decides: 54, 56 and 57, each by the index of the first section at fault.
// The list is the first n rows of a lent table.
// Loops, and not `(0..n).find(..)` or `any`: from what std says of a search over a range the proof of `found_from` did not close.
ghost use Rattle.std.specs.Prelude.{◌≡◌, ◌+◌, ◌-◌, ◌≤◌, ◌<◌, length, drop};
ghost use Rattle.octets.specs.Bytes.{same as same_bytes};
ghost use Rattle.fmd_table.specs.Table.{section_at, sections_in, HasRows};
ghost use Rattle.fmd_table.specs.Invariants.{parent_at, Linked};
ghost use Rattle.fmd_parse.specs.Rows.{section_name, repeats, first_repeat, is_fmap, fmap_in, has_child, holds_cbfs, first_cbfs, found_from, sibling_in};
ghost use Rattle.fmd_parse.specs.Rows.{reach_of, undecided};
ghost use Rattle.fmd_parse.specs.Invariants.{Inside, key_from, key_at, Seen};

use fmd_table::{ParentOffset, Section, SectionRow, last_at, next_at, row_at};

// How far a section reaches: by its own size, up to its next sibling's offset, or up to its parent's end; or nothing says how far.
#[derive(Clone, Copy)]
pub enum Reach {
    OfSize(u32),
    UpTo(ParentOffset),
    ToParentEnd,
    Undecided,
}

// The bytes of a section's name.
#[tactic(auto, unfolding(octets::specs::Bytes::part))]
fn name_of(text: &[u8], h: Section) -> &[u8]
    requires { h.place + h.length ≤ length text.now }
    ensures { result.now ≡ section_name text.now h }
{
    let start = h.place as usize;
    &text[start..start + h.length as usize]
}

fn same_name(text: &[u8], a: Section, b: Section) -> bool
    requires { (a.place + a.length ≤ length text.now) × (b.place + b.length ≤ length text.now) }
    ensures { result ≡ same_bytes (section_name text.now a) (section_name text.now b) }
{
    octets::same(name_of(text, a), name_of(text, b))
}

// Section k has the name of an earlier one.
fn is_repeat(text: &[u8], rows: &[SectionRow], n: usize, k: usize) -> bool
    requires { HasRows n rows.now × Inside text.now (sections_in n rows.now) × (k < n) }
    ensures { result ≡ repeats text.now (sections_in n rows.now) k }
{
    let h = row_at(rows, k);
    for j in 0..k {
        if same_name(text, row_at(rows, j), h) {
            return true;
        }
    }
    false
}

// A number that names of the same bytes share.
fn key_of(name: &[u8]) -> usize
    ensures { (result ≡ key_from 0 name.now) × (result < 2048) }
{
    let mut key = 0;
    for b in name {
        key = (33 * key + *b as usize) % 2048;
    }
    key
}

// The key of section k's name.
fn key_at(text: &[u8], rows: &[SectionRow], n: usize, k: usize) -> usize
    requires { HasRows n rows.now × Inside text.now (sections_in n rows.now) × (k < n) }
    ensures { (result ≡ key_at text.now (sections_in n rows.now) k) × (result < 2048) }
{
    key_of(name_of(text, row_at(rows, k)))
}

// Section k has the name of an earlier one; the keys of those are marked.
fn repeats_seen(
    text: &[u8],
    rows: &[SectionRow],
    n: usize,
    k: usize,
    key: usize,
    seen: &[u8],
) -> bool
    requires { HasRows n rows.now × Inside text.now (sections_in n rows.now) × (k < n)
        × (key ≡ key_at text.now (sections_in n rows.now) k) × (key < length seen.now) × Seen text.now (sections_in n rows.now) k seen.now }
    ensures { result ≡ repeats text.now (sections_in n rows.now) k }
{
    seen[key] != 0 && is_repeat(text, rows, n, k)
}

// Row 54. Names are compared where a key was seen before.
pub fn first_repeat(text: &[u8], rows: &[SectionRow], n: usize) -> Option<usize>
    requires { HasRows n rows.now × Inside text.now (sections_in n rows.now) }
    ensures { result ≡ first_repeat text.now (sections_in n rows.now) }
{
    let mut seen = [0u8; 2048];
    for k in 0..n {
        let key = key_at(text, rows, n, k);
        if repeats_seen(text, rows, n, k, key, &seen) {
            return Some(k);
        }
        seen[key] = 1;
    }
    None
}

// Section k is named FMAP.
fn is_fmap(text: &[u8], rows: &[SectionRow], n: usize, k: usize) -> bool
    requires { HasRows n rows.now × Inside text.now (sections_in n rows.now) × (k < n) }
    ensures { result ≡ is_fmap text.now (sections_in n rows.now) k }
{
    octets::same(name_of(text, row_at(rows, k)), b"FMAP")
}

// The section FMAP.
pub fn find_fmap(text: &[u8], rows: &[SectionRow], n: usize) -> Option<usize>
    requires { HasRows n rows.now × Inside text.now (sections_in n rows.now) }
    ensures { result ≡ fmap_in text.now (sections_in n rows.now) }
{
    for k in 0..n {
        if is_fmap(text, rows, n, k) {
            return Some(k);
        }
    }
    None
}

// Section k has children.
pub fn has_child(rows: &[SectionRow], n: usize, k: usize) -> bool
    requires { HasRows n rows.now × (k < n) × Linked n rows.now }
    ensures { result ≡ has_child (sections_in n rows.now) k }
{
    last_at(rows, k).is_some()
}

// Section k is marked CBFS and has children.
fn holds_cbfs(rows: &[SectionRow], n: usize, k: usize) -> bool
    requires { HasRows n rows.now × (k < n) × Linked n rows.now }
    ensures { result ≡ holds_cbfs (sections_in n rows.now) k }
{
    row_at(rows, k).cbfs && has_child(rows, n, k)
}

// Row 56 of the whole list.
pub fn first_cbfs(rows: &[SectionRow], n: usize) -> Option<usize>
    requires { HasRows n rows.now × Linked n rows.now }
    ensures { result ≡ first_cbfs (sections_in n rows.now) }
{
    for k in 0..n {
        if holds_cbfs(rows, n, k) {
            return Some(k);
        }
    }
    None
}

// The offset, where it has one, of the next section with section k's parent, where there is one.
fn next_sibling(rows: &[SectionRow], n: usize, k: usize) -> Option<Option<ParentOffset>>
    requires { HasRows n rows.now × (k < n) × Linked n rows.now }
    ensures { result ≡ sibling_in (parent_at rows.now k) (drop (k + 1) (sections_in n rows.now)) }
{
    let j = next_at(rows, k)?;
    Some(row_at(rows, j as usize).offset)
}

// Section k, which is h.
pub fn reach_of(rows: &[SectionRow], n: usize, k: usize, h: Section) -> Reach
    requires { HasRows n rows.now × (k < n) × (h ≡ section_at rows.now k) × Linked n rows.now }
    ensures { result ≡ reach_of h.size (sibling_in h.parent (drop (k + 1) (sections_in n rows.now))) }
{
    if let Some(size) = h.size {
        return Reach::OfSize(size);
    }
    match next_sibling(rows, n, k) {
        None => Reach::ToParentEnd,
        Some(None) => Reach::Undecided,
        Some(Some(o)) => Reach::UpTo(o),
    }
}

// Section k has no size, and a next sibling without an offset.
fn undecided_at(rows: &[SectionRow], n: usize, k: usize) -> bool
    requires { HasRows n rows.now × (k < n) × Linked n rows.now }
    ensures { result ≡ undecided (sections_in n rows.now) k }
{
    matches!(reach_of(rows, n, k, row_at(rows, k)), Reach::Undecided)
}

// Row 57, from the index at on.
pub fn first_undecided(rows: &[SectionRow], n: usize, at: usize) -> Option<usize>
    requires { HasRows n rows.now × (at ≤ n) × Linked n rows.now }
    ensures { result ≡ found_from (undecided (sections_in n rows.now)) (n - at) at }
{
    for k in at..n {
        if undecided_at(rows, n, k) {
            return Some(k);
        }
    }
    None
}
