#![tactic(auto)]

// The two copies of header and table on a disk: what reading finds, and the writers of a copy. Everything is in the words of gpt_model.
// An inner crate: no user calls it, so its functions may have a `requires`, which each caller meets.
// That head and tail are as long as the shape says stays a `requires`: C lends slices of any length, and no array type has a shape's length.
pub mod reading;
pub mod writing;

// D10: 1 both good with equal disk GUID and entries, 2 both good but different (primary used), 3 primary only, 4 backup only.
#[derive(Clone, Copy, PartialEq, Eq)]
pub enum State {
    Both = 1,
    Differ = 2,
    PrimaryOnly = 3,
    BackupOnly = 4,
}
