#![tactic(auto)]

// Sections in two tables that are lent: as they stand in the text, and with their offsets and sizes.
// An inner crate: no user calls it, so its functions may have a `requires`, which each caller meets.
ghost use Rattle.std.specs.Prelude.{◌++◌, ◌∷◌, [], ◌≡◌, ◌+◌, ◌≤◌, ◌<◌};
ghost use Rattle.fmd_table.specs.Table.{section_at, sections_in, placed_at, placed_in, HasRows, HasSpots};
ghost use Rattle.fmd_table.specs.Invariants.{next_link, last_link, last_child_at, IsParent, Linked, linked_to};

// The image's row, of which only the last child is used.
const IMAGE: usize = 128;

// The most sections that a layout text has, and their rows with the image's.
pub const SPOTS: usize = 128;

pub const ROWS: usize = 129;

// A number of bytes from the parent's start.
#[derive(Clone, Copy)]
pub struct ParentOffset(pub u32);

// A section as it stands in the text, with its offset and size where they are given: its name by place and length;
// parent is the parent's row, 128 for the image, as the definitions of the grammar number it (fmd_grammar SectionTree).
#[derive(Clone, Copy)]
pub struct Section {
    pub offset: Option<ParentOffset>,
    pub size: Option<u32>,
    pub place: u32,
    pub length: u32,
    pub cbfs: bool,
    pub preserve: bool,
    pub parent: u32,
    pub level: u32,
}

// A section in its row, with its links: the rows of the next section with its parent and of its own last child.
#[derive(Clone, Copy)]
pub struct SectionRow {
    pub section: Section,
    pub next: Option<u8>,
    pub last: Option<u8>,
}

// A section with its offset and its size.
#[derive(Clone, Copy)]
pub struct Placed {
    pub offset: ParentOffset,
    pub size: u32,
    pub parent: u32,
    pub level: u32,
}

// What tables hold before anything is read.
pub const NO_ROW: SectionRow = SectionRow {
    section: Section {
        offset: None,
        size: None,
        place: 0,
        length: 0,
        cbfs: false,
        preserve: false,
        parent: 0,
        level: 0,
    },
    next: None,
    last: None,
};

pub const NO_PLACE: Placed = Placed {
    offset: ParentOffset(0),
    size: 0,
    parent: 0,
    level: 0,
};

// Links row k, behind the parent's last child.
#[tactic(auto, unfolding(crate::specs::Invariants::linked_to))]
fn link(rows: &mut [SectionRow], k: usize, parent: usize)
    requires { HasRows 129 rows.old × (k < 128) × (parent ≤ 128) × (last_child_at rows.old parent ≤ 128) }
    ensures { rows.new ≡ linked_to k parent rows.old }
{
    if let Some(last) = rows[parent].last {
        rows[last as usize].next = Some(k as u8);
    }
    rows[parent].last = Some(k as u8);
}

// The table without a section.
pub fn clear(rows: &mut [SectionRow])
    requires { HasRows 129 rows.old }
    ensures { Linked 0 rows.new }
{
    rows[IMAGE].last = None;
}

// The section h in row n, after those below it.
pub fn push(rows: &mut [SectionRow], n: usize, h: Section)
    requires { HasRows 129 rows.old × (n < 128) × IsParent n h.parent × Linked n rows.old }
    ensures { (sections_in (n + 1) rows.new ≡ sections_in n rows.old ++ (h ∷ [])) × Linked (n + 1) rows.new }
{
    link(rows, n, h.parent as usize);
    rows[n] = SectionRow {
        section: h,
        next: None,
        last: None,
    };
}

// The row of the next section with section k's parent.
#[tactic(auto, unfolding(crate::specs::Invariants::next_link))]
pub fn next_at(rows: &[SectionRow], k: usize) -> Option<u8>
    requires { HasRows (k + 1) rows.now }
    ensures { result ≡ next_link rows.now k }
{
    rows[k].next
}

// The row of the last section with the parent k.
#[tactic(auto, unfolding(crate::specs::Invariants::last_link))]
pub fn last_at(rows: &[SectionRow], k: usize) -> Option<u8>
    requires { HasRows (k + 1) rows.now }
    ensures { result ≡ last_link rows.now k }
{
    rows[k].last
}

#[tactic(auto, unfolding(crate::specs::Table::section_at))]
pub fn row_at(rows: &[SectionRow], k: usize) -> Section
    requires { HasRows (k + 1) rows.now }
    ensures { result ≡ section_at rows.now k }
{
    rows[k].section
}

// Writes row k, after those below it.
pub fn put_placed(spots: &mut [Placed], k: usize, q: Placed)
    requires { HasSpots (k + 1) spots.old }
    ensures { placed_in (k + 1) spots.new ≡ placed_in k spots.old ++ (q ∷ []) }
{
    spots[k] = q;
}

#[tactic(auto, unfolding(crate::specs::Table::placed_at))]
pub fn placed_at(spots: &[Placed], k: usize) -> Placed
    requires { HasSpots (k + 1) spots.now }
    ensures { result ≡ placed_at spots.now k }
{
    spots[k]
}
