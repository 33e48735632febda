// The writers of a copy: an entry and the header anew, a whole copy, a fresh head or tail.
ghost use Rattle.std.specs.Prelude.{◌≡◌, List, ℕ, ◌≤◌, ◌<◌, length};
ghost use Rattle.octets.specs.Bytes.{put, zeros, put_chunk};
ghost use Rattle.crc_lanes.specs.Crc.{crc32 as crc_of};
ghost use Rattle.gpt_model.specs.Table.{write_all, entry_bytes, slot_count, table_bytes};
ghost use Rattle.gpt_model.specs.Disk.{primary, backup, lent_bytes, header_at, entries_at, guid_in, entries_in, header, lent, with_table, with_copy};
ghost use Rattle.gpt_model.specs.Disk.{most_blocks, block0, fresh_head, fresh_tail};
ghost use Rattle.gpt_places.specs.Invariants.{Legal};
ghost use Rattle.gpt_places.specs.Sides.{side_of};

use gpt_model::Shape;
use gpt_places::{Disk, ENTRY, Side, TABLE};

// The header of a copy whose table has that CRC, in its place.
fn put_header(b: &mut [u8], side: Side, disk: Disk, guid: &[u8; 16], crc: u32)
    requires { length b.old ≡ lent_bytes disk.shape (side_of side) }
    ensures { (es : List ℕ) → crc ≡ crc_of es
        → b.new ≡ put (header_at disk.shape (side_of side)) (header disk.shape disk.n (side_of side) guid.now es) b.old }
{
    let header = gpt_places::header::of(side, disk, guid, crc);
    octets::copy(b, gpt_places::header_at(side, disk.shape), &header);
}

// The header anew, with the disk GUID that it has.
fn renew_header(b: &mut [u8], side: Side, disk: Disk, crc: u32)
    requires { length b.old ≡ lent_bytes disk.shape (side_of side) }
    ensures { (es : List ℕ) → crc ≡ crc_of es
        → b.new ≡ put (header_at disk.shape (side_of side))
        (header disk.shape disk.n (side_of side) (guid_in disk.shape (side_of side) b.old) es) b.old }
{
    let guid = *gpt_places::guid_in(&b[..], side, disk.shape);
    put_header(b, side, disk, &guid, crc);
}

fn set_entry(b: &mut [u8], side: Side, shape: Shape, i: usize, e: &[u8; ENTRY])
    requires { (length b.old ≡ lent_bytes shape (side_of side)) × (i < slot_count) × Legal shape }
    ensures { b.new
        ≡ put (entries_at shape (side_of side)) (put_chunk entry_bytes i e.now (entries_in shape (side_of side) b.old)) b.old }
{
    let at = gpt_places::entries_at(side, shape) + i * ENTRY;
    octets::copy(b, at, e);
}

// Entry i and the header anew, with the disk GUID that it has, in one copy. The CRC is that of the table with the entry in it.
pub fn put_entry(b: &mut [u8], side: Side, disk: Disk, i: usize, e: &[u8; ENTRY], crc: u32)
    requires { (length b.old ≡ lent_bytes disk.shape (side_of side)) × (i < slot_count)
        × (crc ≡ crc_of (put_chunk entry_bytes i e.now (entries_in disk.shape (side_of side) b.old))) }
    ensures { b.new ≡ with_table disk.shape disk.n (side_of side) (guid_in disk.shape (side_of side) b.old)
        (put_chunk entry_bytes i e.now (entries_in disk.shape (side_of side) b.old)) b.old }
{
    set_entry(b, side, disk.shape, i, e);
    renew_header(b, side, disk, crc);
}

// The CRC of a table with entry i replaced.
pub fn crc_with(table: &[u8; TABLE], i: usize, e: &[u8; ENTRY]) -> u32
    requires { i < slot_count }
    ensures { result ≡ crc_of (put_chunk entry_bytes i e.now table.now) }
{
    let at = i * ENTRY;
    let end = at + ENTRY;
    let before = crc32::update(0xffff_ffff, &table[0..at]);
    let with = crc32::update(before, e);
    crc32::update(with, &table[end..]) ^ 0xffff_ffff
}

// The same entry in both copies, whose tables hold the same bytes: one CRC serves both.
pub fn put_both(head: &mut [u8], tail: &mut [u8], disk: Disk, i: usize, e: &[u8; ENTRY])
    requires { (length head.old ≡ lent_bytes disk.shape primary) × (length tail.old ≡ lent_bytes disk.shape backup) × (i < slot_count)
        × (entries_in disk.shape primary head.old ≡ entries_in disk.shape backup tail.old) }
    ensures { (head.new ≡ with_table disk.shape disk.n primary (guid_in disk.shape primary head.old)
        (put_chunk entry_bytes i e.now (entries_in disk.shape primary head.old)) head.old)
        × (tail.new ≡ with_table disk.shape disk.n backup (guid_in disk.shape backup tail.old)
        (put_chunk entry_bytes i e.now (entries_in disk.shape primary head.old)) tail.old) }
{
    let crc = crc_with(
        gpt_places::table_in(&head[..], Side::Primary, disk.shape),
        i,
        e,
    );
    put_entry(head, Side::Primary, disk, i, e, crc);
    put_entry(tail, Side::Backup, disk, i, e, crc);
}

fn clear_header(b: &mut [u8], side: Side, shape: Shape)
    requires { (length b.old ≡ lent_bytes shape (side_of side)) × Legal shape }
    ensures { b.new ≡ put (header_at shape (side_of side)) (zeros shape.block) b.old }
{
    let at = gpt_places::header_at(side, shape);
    let end = at + shape.block;
    octets::fill(&mut b[at..end], 0);
}

// The table, whose CRC is given, and its header in one copy, every other byte as it was.
fn put_table(b: &mut [u8], side: Side, disk: Disk, guid: &[u8; 16], table: &[u8; TABLE], crc: u32)
    requires { (length b.old ≡ lent_bytes disk.shape (side_of side)) × (crc ≡ crc_of table.now) }
    ensures { b.new ≡ with_table disk.shape disk.n (side_of side) guid.now table.now b.old }
{
    octets::copy(b, gpt_places::entries_at(side, disk.shape), table);
    put_header(b, side, disk, guid, crc);
}

// D24: the other copy's 33 blocks from the good one, header tail zero.
pub fn put_copy(b: &mut [u8], side: Side, disk: Disk, guid: &[u8; 16], table: &[u8; TABLE])
    requires { length b.old ≡ lent_bytes disk.shape (side_of side) }
    ensures { b.new ≡ with_copy disk.shape disk.n (side_of side) guid.now table.now b.old }
{
    clear_header(b, side, disk.shape);
    put_table(b, side, disk, guid, table, crc32::crc32(table));
}

// Block 0, which only the head has. D13: at 446 the record 00, 00 02 00, EE, FF FF FF, 1, N−1 (last two 32-bit), and 55 AA at 510.
fn put_block0(b: &mut [u8], side: Side, disk: Disk)
    requires { (length b.old ≡ lent_bytes disk.shape (side_of side)) × (side_of side ≡ primary → disk.n ≤ most_blocks) }
    ensures { b.new ≡ lent (side_of side) (write_all (block0 disk.n) b.old) b.old }
{
    match side {
        Side::Primary => {
            octets::copy(b, 446, b"\x00\x00\x02\x00\xee\xff\xff\xff");
            octets::store(b, 454, 1u32);
            octets::store(b, 458, (disk.n - 1) as u32);
            octets::copy(b, 510, b"\x55\xaa");
        }
        Side::Backup => {}
    }
}

// D13: both copies with no entries and block 0. D14: All header tails are zero.
pub fn fresh(b: &mut [u8], side: Side, disk: Disk, guid: &[u8; 16])
    requires { (length b.old ≡ lent_bytes disk.shape (side_of side)) × (side_of side ≡ primary → disk.n ≤ most_blocks) }
    ensures { b.new ≡ lent (side_of side) (fresh_head disk.shape disk.n guid.now (zeros table_bytes))
        (fresh_tail disk.shape disk.n guid.now (zeros table_bytes)) }
{
    octets::fill(b, 0);
    let crc = crc32::crc32(gpt_places::table_in(&b[..], side, disk.shape));
    put_block0(b, side, disk);
    put_header(b, side, disk, guid, crc);
}

// b1: should become a formatted head and tail. With that table, whose CRC is given
fn put_built(b: &mut [u8], side: Side, disk: Disk, guid: &[u8; 16], table: &[u8; TABLE], crc: u32)
    requires { (length b.old ≡ lent_bytes disk.shape (side_of side)) × (side_of side ≡ primary → disk.n ≤ most_blocks)
        × (crc ≡ crc_of table.now) }
    ensures { b.new ≡ lent (side_of side) (fresh_head disk.shape disk.n guid.now table.now)
        (fresh_tail disk.shape disk.n guid.now table.now) }
{
    octets::fill(b, 0);
    put_block0(b, side, disk);
    put_table(b, side, disk, guid, table, crc);
}

// One of the two, with that table
pub fn built(b: &mut [u8], side: Side, disk: Disk, guid: &[u8; 16], table: &[u8; TABLE])
    requires { (length b.old ≡ lent_bytes disk.shape (side_of side)) × (side_of side ≡ primary → disk.n ≤ most_blocks) }
    ensures { b.new ≡ lent (side_of side) (fresh_head disk.shape disk.n guid.now table.now)
        (fresh_tail disk.shape disk.n guid.now table.now) }
{
    put_built(b, side, disk, guid, table, crc32::crc32(table));
}

// Both, with that table, whose CRC serves both. It is given, so that its computation lies no deeper in the stack than the table does.
pub fn built_both(
    head: &mut [u8],
    tail: &mut [u8],
    disk: Disk,
    guid: &[u8; 16],
    table: &[u8; TABLE],
    crc: u32,
)
    requires { (length head.old ≡ lent_bytes disk.shape primary) × (length tail.old ≡ lent_bytes disk.shape backup)
        × (disk.n ≤ most_blocks) × (crc ≡ crc_of table.now) }
    ensures { (head.new ≡ fresh_head disk.shape disk.n guid.now table.now)
        × (tail.new ≡ fresh_tail disk.shape disk.n guid.now table.now) }
{
    put_built(head, Side::Primary, disk, guid, table, crc);
    put_built(tail, Side::Backup, disk, guid, table, crc);
}
