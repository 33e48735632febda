#![tactic(auto)]

// What a GPT disk is and what each call does to it: definitions and theorems alone, no function.
// The definitions stand in specs/, in the order of the rules; the contracts of the crates above cite them.

// A block's number; never a byte position.
#[derive(Clone, Copy)]
pub struct Block(pub u64);

// The shape of a disk: the bytes of a block, and the first usable block. Definitions, theorems and code are over these two numbers.
#[derive(Clone, Copy)]
pub struct Shape {
    pub block: usize,
    pub first: u64,
}

// k1: Some firmware wants attribute bits 1 to 47 zero; today only 3 to 47 are. The two rules for the attribute bits of a used entry.
#[derive(Clone, Copy)]
pub enum Rule {
    Present,
    Earlier,
}

// (D15) What an add is given: type and unique GUID as they are stored, size and (e1) alignment in blocks, attributes and (k2) their rule, name.
#[derive(Clone, Copy)]
pub struct NewPartition {
    pub kind: [u8; 16],
    pub unique: [u8; 16],
    pub size: u64,
    pub alignment: u64,
    pub attributes: u64,
    pub rule: Rule,
    pub name: [u16; 36],
}
