#![tactic(auto)]

// The shape of a disk by its block size, and where header and table of each copy lie in head and tail on a disk of a shape; in `header` the header writer
// and the header's judge. Everything is in the words of gpt_model.
// An inner crate: no user calls it, so its functions may have a `requires`, which each caller meets.
// `Legal shape` stays a `requires`: theorems range over `Shape`; a type with a model over it did not prove, as a field of `Disk` passed by value.
mod disk;
pub mod header;

ghost use Rattle.std.specs.Prelude.{◌≡◌, ◌≤◌, length};
ghost use Rattle.gpt_model.specs.Table.{table_bytes};
ghost use Rattle.gpt_model.specs.Disk.{last_usable, other as other_side, header_block, entries_block, lent_bytes, header_at, entries_at, header_in};
ghost use Rattle.gpt_model.specs.Disk.{guid_in, entries_in};
ghost use Rattle.gpt_model.specs.Sizes.{shape_of};
ghost use Rattle.gpt_places.specs.Invariants.{Legal, Fits};
ghost use Rattle.gpt_places.specs.Sides.{side_of, behind};

pub use disk::Disk;
use gpt_model::{Block, Shape};

// D1: header size 92
pub const HEADER: usize = 92;

// D1: count 128
pub const SLOTS: usize = 128;

// D1: entry size 128
pub const ENTRY: usize = 128;

// D1: all 16,384 entry bytes
pub const TABLE: usize = SLOTS * ENTRY;

// Q1: A disk has 512-byte blocks. D1: first usable 34. l1: usable blocks run from 6 to N−6. The numbers of a shape stand here alone.
pub fn shape_of(block: u64) -> Option<Shape>
    ensures { result ≡ shape_of block }
{
    match block {
        512 => Some(Shape {
            block: 512,
            first: 34,
        }),
        4096 => Some(Shape {
            block: 4096,
            first: 6,
        }),
        _ => None,
    }
}

#[derive(Clone, Copy)]
pub enum Side {
    Primary,
    Backup,
}

impl Side {
    pub fn other(self) -> Side
        ensures { side_of result ≡ other_side (side_of self) }
    {
        match self {
            Side::Primary => Side::Backup,
            Side::Backup => Side::Primary,
        }
    }
}

// D2: The primary header is block 1 with entries from 2; the backup header is block N−1 with entries from N−33. l1: backup entries start at N−5
pub fn header_block(side: Side, n: u64) -> Block
    requires { 1 ≤ n }
    ensures { result.0 ≡ header_block (side_of side) n }
{
    match side {
        Side::Primary => Block(1),
        Side::Backup => Block(n - 1),
    }
}

// Q3: the head, blocks 0 to 33 (17,408 bytes), and the tail, the last 33 blocks (16,896 bytes). l1: the head is 6 blocks (24,576 bytes), the tail 5 (20,480)
pub fn lent_bytes(side: Side, shape: Shape) -> usize
    requires { Legal shape }
    ensures { result ≡ lent_bytes shape (side_of side) }
{
    match side {
        Side::Primary => 2 * shape.block + TABLE,
        Side::Backup => TABLE + shape.block,
    }
}

// Where header and entries stand in the head or the tail.
pub fn header_at(side: Side, shape: Shape) -> usize
    ensures { result ≡ header_at shape (side_of side) }
{
    match side {
        Side::Primary => shape.block,
        Side::Backup => TABLE,
    }
}

pub fn entries_at(side: Side, shape: Shape) -> usize
    requires { Legal shape }
    ensures { result ≡ entries_at shape (side_of side) }
{
    match side {
        Side::Primary => 2 * shape.block,
        Side::Backup => 0,
    }
}

// Header, disk GUID and entries of a copy, in their place.
pub fn header_in<'a>(b: &'a [u8], side: Side, shape: Shape) -> &'a [u8]
    requires { (length b.now ≡ lent_bytes shape (side_of side)) × Legal shape }
    ensures { result.now ≡ header_in shape (side_of side) b.now }
{
    let at = header_at(side, shape);
    let end = at + HEADER;
    &b[at..end]
}

pub fn guid_in<'a>(b: &'a [u8], side: Side, shape: Shape) -> &'a [u8; 16]
    requires { (length b.now ≡ lent_bytes shape (side_of side)) × Legal shape }
    ensures { result.now ≡ guid_in shape (side_of side) b.now }
{
    let at = header_at(side, shape) + 56;
    b[at..at + 16].as_array::<16>().unwrap()
}

pub fn entries_in<'a>(b: &'a [u8], side: Side, shape: Shape) -> &'a [u8]
    requires { (length b.now ≡ lent_bytes shape (side_of side)) × Legal shape }
    ensures { (result.now ≡ entries_in shape (side_of side) b.now) × (length result.now ≡ table_bytes)
        × (result.ref_ptr ≡ behind (entries_at shape (side_of side)) b.entry.ref_ptr) }
{
    let at = entries_at(side, shape);
    let end = at + TABLE;
    &b[at..end]
}

// The same as an array, whose place is not told: std's `as_array` says its bytes alone.
pub fn table_in<'a>(b: &'a [u8], side: Side, shape: Shape) -> &'a [u8; TABLE]
    requires { (length b.now ≡ lent_bytes shape (side_of side)) × Legal shape }
    ensures { result.now ≡ entries_in shape (side_of side) b.now }
{
    entries_in(b, side, shape).as_array::<TABLE>().unwrap()
}
