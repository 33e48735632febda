// What reading finds: which copies are good.
ghost use Rattle.std.specs.Prelude.{◌≡◌, false, length};
ghost use Rattle.octets.specs.Bytes.{same};
ghost use Rattle.gpt_model.specs.Disk.{primary, backup, lent_bytes, entries_in, good_copy, state_of, state as state_on};
ghost use Rattle.gpt_places.specs.Sides.{side_of};
ghost use Rattle.gpt_copies.specs.States.{state_number};

use super::State;
use gpt_places::{Disk, Side};

fn state_of(first: bool, second: bool, equal: bool) -> Option<State>
    ensures { state_number result ≡ state_of first second equal }
{
    match (first, second, equal) {
        (true, true, true) => Some(State::Both),
        (true, true, false) => Some(State::Differ),
        (true, false, _) => Some(State::PrimaryOnly),
        (false, true, _) => Some(State::BackupOnly),
        (false, false, _) => None,
    }
}

fn good_copy(b: &[u8], side: Side, disk: Disk) -> bool
    requires { length b.now ≡ lent_bytes disk.shape (side_of side) }
    ensures { result ≡ good_copy disk.shape disk.n (side_of side) b.now }
{
    let table = gpt_places::table_in(b, side, disk.shape);
    gpt_places::header::good(b, side, disk, crc32::crc32(table))
        && gpt_table::rules::table_ok(
            gpt_table::as_table(table),
            disk.first_usable(),
            disk.last_usable(),
        )
}

// Where the tables differ, each copy is judged by itself.
fn state_apart(head: &[u8], tail: &[u8], disk: Disk) -> Option<State>
    requires { (length head.now ≡ lent_bytes disk.shape primary) × (length tail.now ≡ lent_bytes disk.shape backup)
        × (same (entries_in disk.shape primary head.now) (entries_in disk.shape backup tail.now) ≡ false) }
    ensures { state_number result ≡ state_on disk.shape disk.n head.now tail.now }
{
    let first = good_copy(head, Side::Primary, disk);
    let second = good_copy(tail, Side::Backup, disk);
    state_of(first, second, false)
}

// Where the tables hold the same bytes, they are judged once, and one CRC serves both headers.
fn state_alike(head: &[u8], tail: &[u8], disk: Disk) -> Option<State>
    requires { (length head.now ≡ lent_bytes disk.shape primary) × (length tail.now ≡ lent_bytes disk.shape backup)
        × (entries_in disk.shape primary head.now ≡ entries_in disk.shape backup tail.now) }
    ensures { state_number result ≡ state_on disk.shape disk.n head.now tail.now }
{
    let table = gpt_places::table_in(head, Side::Primary, disk.shape);
    if !gpt_table::rules::table_ok(
        gpt_table::as_table(table),
        disk.first_usable(),
        disk.last_usable(),
    ) {
        return None;
    }
    let crc = crc32::crc32(table);
    let first = gpt_places::header::good(head, Side::Primary, disk, crc);
    let second = gpt_places::header::good(tail, Side::Backup, disk, crc);
    let equal = octets::same(
        gpt_places::guid_in(head, Side::Primary, disk.shape),
        gpt_places::guid_in(tail, Side::Backup, disk.shape),
    );
    state_of(first, second, equal)
}

pub fn state(head: &[u8], tail: &[u8], disk: Disk) -> Option<State>
    requires { (length head.now ≡ lent_bytes disk.shape primary) × (length tail.now ≡ lent_bytes disk.shape backup) }
    ensures { state_number result ≡ state_on disk.shape disk.n head.now tail.now }
{
    if octets::same(
        gpt_places::table_in(head, Side::Primary, disk.shape),
        gpt_places::table_in(tail, Side::Backup, disk.shape),
    ) {
        return state_alike(head, tail, disk);
    }
    state_apart(head, tail, disk)
}
