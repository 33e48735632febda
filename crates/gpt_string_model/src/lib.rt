#![tactic(auto)]

// What a layout string of the boot loader is, what it asks for, and the disk that becomes of it: definitions and theorems alone, no function.
// The definitions stand in specs/; the contracts of the crates above cite them.

// A partition as a layout string asks for it: type and unique GUID as they are stored, start and size in bytes, attributes, name.
// Without a start it begins at the lowest one, as in adding.
#[derive(Clone, Copy)]
pub struct WantedPartition {
    pub kind: [u8; 16],
    pub unique: [u8; 16],
    pub start: Option<u64>,
    pub size: u64,
    pub attributes: u64,
    pub name: [u16; 36],
}
