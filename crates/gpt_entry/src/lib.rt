#![tactic(auto)]

// The 128 bytes of the one entry that an edit writes: of a new partition, or of one with another size or name; the bytes of a name.
// An inner crate: no user calls it, so its functions may have a `requires`, which each caller meets.
ghost use Rattle.std.specs.Prelude.{◌≡◌, ◌+◌, ◌-◌, ◌≤◌, ◌<◌, length};
ghost use Rattle.octets.specs.Bytes.{le, put};
ghost use Rattle.gpt_model.specs.Table.{entry_bytes, first_of, name_bytes};
ghost use Rattle.gpt_model.specs.Calls.{new_entry};

use gpt_model::{Block, NewPartition};
use gpt_table::{ENTRY, Entry, FIRST_AT, LAST_AT, UNIQUE_AT};

// D5: attributes 48, name 56 as 36 16-bit units.
const ATTRIBUTES_AT: usize = 48;

pub const NAME_AT: usize = 56;

const NAME_UNITS: usize = 36;

const NAME_BYTES: usize = 72;

// The bytes of a name, as an entry has them.
pub fn name_bytes(name: &[u16; NAME_UNITS]) -> [u8; NAME_BYTES]
    ensures { (result ≡ name_bytes name.now) × (length result ≡ 72) }
{
    let mut bytes = [0; NAME_BYTES];
    for (i, unit) in name.iter().enumerate() {
        octets::store(&mut bytes, 2 * i, *unit);
    }
    bytes
}

// A new partition from block `first` on.
pub fn added(p: NewPartition, first: Block) -> Entry
    requires { (0 < p.size) × (first.0 + p.size < 18446744073709551616) }
    ensures { (result ≡ new_entry p first.0) × (length result ≡ entry_bytes) }
{
    let mut e = [0; ENTRY];
    octets::copy(&mut e, 0, &p.kind);
    octets::copy(&mut e, UNIQUE_AT, &p.unique);
    octets::store(&mut e, FIRST_AT, first.0);
    octets::store(&mut e, LAST_AT, first.0 + (p.size - 1));
    octets::store(&mut e, ATTRIBUTES_AT, p.attributes);
    octets::copy(&mut e, NAME_AT, &name_bytes(&p.name));
    e
}

// The entry with the last block that the size asks for.
pub fn resized(entry: &Entry, size: u64) -> Entry
    requires { (0 < size) × (first_of entry.now + size < 18446744073709551616) }
    ensures { (result ≡ put 40 (le 8 (first_of entry.now + size - 1)) entry.now) × (length result ≡ entry_bytes) }
{
    let last = octets::load::<u64, _>(entry, FIRST_AT) + (size - 1);
    let mut e = *entry;
    octets::store(&mut e, LAST_AT, last);
    e
}

// The entry with another name.
pub fn renamed(entry: &Entry, name: &[u16; NAME_UNITS]) -> Entry
    ensures { (result ≡ put 56 (name_bytes name.now) entry.now) × (length result ≡ entry_bytes) }
{
    let mut e = *entry;
    octets::copy(&mut e, NAME_AT, &name_bytes(name));
    e
}
