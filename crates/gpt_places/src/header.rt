// The header writer, for formatting, edits, repair and judging.
ghost use Rattle.std.specs.Prelude.{◌≡◌, List, [], ℕ, length, take, drop};
ghost use Rattle.crc_lanes.specs.Crc.{crc32 as crc_of};
ghost use Rattle.gpt_model.specs.Table.{write_all};
ghost use Rattle.gpt_model.specs.Disk.{Shape as AnyShape, primary, header_bytes, lent_bytes, entries_in, header_fields, header};
ghost use Rattle.gpt_places.specs.Sides.{side_of, good_header};

use super::{Disk, ENTRY, HEADER, SLOTS, Side};

// The fields are those of `header_fields`, in its order. The first five: signature, revision, header size, the CRC as zero, reserved zero.
fn start(out: &mut [u8; HEADER])
    ensures { (g : AnyShape) → out.new ≡ write_all (take 5 (header_fields g 0 primary [] [] 0)) out.old }
{
    octets::copy(out, 0, b"EFI PART");
    octets::store(out, 8, 0x10000u32);
    octets::store(out, 12, HEADER as u32);
    octets::store(out, 16, 0u32);
    octets::store(out, 20, 0u32);
}

// The next four: own block, other header's block, first and last usable block.
fn blocks(out: &mut [u8; HEADER], side: Side, disk: Disk)
    ensures { out.new ≡ write_all (take 4 (drop 5 (header_fields disk.shape disk.n (side_of side) [] [] 0))) out.old }
{
    let own = super::header_block(side, disk.n);
    let other = super::header_block(side.other(), disk.n);
    octets::store(out, 24, own.0);
    octets::store(out, 32, other.0);
    octets::store(out, 40, disk.first_usable().0);
    octets::store(out, 48, disk.last_usable().0);
}

// The last five: disk GUID, first block of entries, count, entry size, CRC of the entries.
fn table(out: &mut [u8; HEADER], side: Side, disk: Disk, guid: &[u8; 16], crc: u32)
    ensures { (es : List ℕ) → crc ≡ crc_of es
        → out.new ≡ write_all (drop 9 (header_fields disk.shape disk.n (side_of side) guid.now es 0)) out.old }
{
    octets::copy(out, 56, guid);
    octets::store(out, 72, disk.entries_block(side).0);
    octets::store(out, 80, SLOTS as u32);
    octets::store(out, 84, ENTRY as u32);
    octets::store(out, 88, crc);
}

// The header of a copy whose table has that CRC.
pub fn of(side: Side, disk: Disk, guid: &[u8; 16], crc: u32) -> [u8; HEADER]
    ensures { ((es : List ℕ) → crc ≡ crc_of es → result ≡ header disk.shape disk.n (side_of side) guid.now es) × (length result ≡ header_bytes) }
{
    let mut out = [0; HEADER];
    start(&mut out);
    blocks(&mut out, side, disk);
    table(&mut out, side, disk, guid, crc);
    let c = crc32::crc32(&out);
    octets::store(&mut out, 16, c);
    out
}

// D8: every named header field, both CRCs: the header of a copy is the one that N, side, its disk GUID and its entries decide, the entries by their CRC.
pub fn good(b: &[u8], side: Side, disk: Disk, crc: u32) -> bool
    requires { (length b.now ≡ lent_bytes disk.shape (side_of side)) × (crc ≡ crc_of (entries_in disk.shape (side_of side) b.now)) }
    ensures { result ≡ good_header disk.shape disk.n (side_of side) b.now }
{
    let right = of(side, disk, super::guid_in(b, side, disk.shape), crc);
    octets::same(super::header_in(b, side, disk.shape), &right)
}
