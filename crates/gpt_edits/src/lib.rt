#![tactic(auto)]

// The writers of the calls that change a disk, where none of the call's rows of refusals holds: one entry in both copies, or one copy from the other.
// An inner crate: no user calls it, so its functions may have a `requires`, which each caller meets.
ghost use Rattle.std.specs.Prelude.{◌≡◌, [], ◌∷◌, length};
ghost use Rattle.std.proofs.Math.Option.{none, some};
ghost use Rattle.octets.specs.Rows.{refusal};
ghost use Rattle.gpt_model.specs.Disk.{last_usable, other, lent_bytes, guid_in, entries_in, table_of, with_copy};
ghost use Rattle.gpt_model.specs.Calls.{accepted, outcome, start_for, step, rows_of, edit};
ghost use Rattle.gpt_places.specs.Sides.{side_of};
ghost use Rattle.gpt_model.specs.Calls.{add as add_call, delete as delete_call, resize as resize_call, rename as rename_call};

use gpt_model::{Block, NewPartition};
use gpt_places::{Disk, ENTRY, Side};

pub fn delete(head: &mut [u8], tail: &mut [u8], disk: Disk, slot: u64)
    requires { refusal (rows_of disk.shape disk.n head.old tail.old (edit (delete_call slot))) ≡ none }
    ensures { outcome (accepted []) head.new tail.new
        ≡ step disk.shape disk.n head.old tail.old (edit (delete_call slot)) }
{
    let none = [0u8; ENTRY];
    gpt_copies::writing::put_both(head, tail, disk, (slot - 1) as usize, &none);
}

// It shares no function with `resize`: the contract of a closure for the entry is longer than the four lines.
pub fn rename(head: &mut [u8], tail: &mut [u8], disk: Disk, slot: u64, name: &[u16; 36])
    requires { refusal (rows_of disk.shape disk.n head.old tail.old (edit (rename_call slot name.now))) ≡ none }
    ensures { outcome (accepted []) head.new tail.new
        ≡ step disk.shape disk.n head.old tail.old (edit (rename_call slot name.now)) }
{
    let i = (slot - 1) as usize;
    let new = gpt_entry::renamed(
        &gpt_table::as_table(gpt_places::table_in(&head[..], Side::Primary, disk.shape))[i],
        name,
    );
    gpt_copies::writing::put_both(head, tail, disk, i, &new);
}

pub fn resize(head: &mut [u8], tail: &mut [u8], disk: Disk, slot: u64, size: u64)
    requires { refusal (rows_of disk.shape disk.n head.old tail.old (edit (resize_call slot size))) ≡ none }
    ensures { outcome (accepted []) head.new tail.new
        ≡ step disk.shape disk.n head.old tail.old (edit (resize_call slot size)) }
{
    let i = (slot - 1) as usize;
    let new = gpt_entry::resized(
        &gpt_table::as_table(gpt_places::table_in(&head[..], Side::Primary, disk.shape))[i],
        size,
    );
    gpt_copies::writing::put_both(head, tail, disk, i, &new);
}

// From a start with room; answers the slot that is taken.
pub fn add(head: &mut [u8], tail: &mut [u8], disk: Disk, p: NewPartition, first: Block) -> u64
    requires { (refusal (rows_of disk.shape disk.n head.old tail.old (edit (add_call p))) ≡ none)
        × (start_for disk.shape.first (last_usable disk.shape disk.n) (table_of disk.shape disk.n head.old tail.old) p ≡ some first.0) }
    ensures { outcome (accepted (result ∷ first.0 ∷ [])) head.new tail.new
        ≡ step disk.shape disk.n head.old tail.old (edit (add_call p)) }
{
    let table = gpt_places::table_in(&head[..], Side::Primary, disk.shape);
    let i = gpt_table::first_unused(gpt_table::as_table(table)).unwrap();
    let new = gpt_entry::added(p, first);
    gpt_copies::writing::put_both(head, tail, disk, i, &new);
    i as u64 + 1
}

// Repair writes the copy of a side from the other, good one.
pub fn repair(b: &mut [u8], side: Side, good: &[u8], disk: Disk)
    requires { (length b.old ≡ lent_bytes disk.shape (side_of side)) × (length good.now ≡ lent_bytes disk.shape (other (side_of side))) }
    ensures { b.new ≡ with_copy disk.shape disk.n (side_of side) (guid_in disk.shape (other (side_of side)) good.now)
        (entries_in disk.shape (other (side_of side)) good.now) b.old }
{
    let from = side.other();
    let guid = gpt_places::guid_in(good, from, disk.shape);
    let table = gpt_places::table_in(good, from, disk.shape);
    gpt_copies::writing::put_copy(b, side, disk, guid, table);
}
