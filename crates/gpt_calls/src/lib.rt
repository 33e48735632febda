#![tactic(auto, using(crate::proofs::Refusals::refusals))]

// The GPT calls on a disk of a shape: each asks its judge of gpt_checks first, and writes after, by gpt_edits or gpt_copies.
// Its contract is one equation with `format` or `step` of gpt_model for its answer and both buffers afterwards.
// An inner crate: no user calls it, so its functions have a `requires`, that the shape is legal, which gpt meets by the block size.
ghost use Rattle.std.specs.Prelude.{◌≡◌, true, length, Ok, Some};
ghost use Rattle.gpt_model.specs.Table.{table_bytes};
ghost use Rattle.gpt_model.specs.Disk.{used_side};
ghost use Rattle.gpt_model.specs.Calls.{outcome, lengths_ok, step, format as format_on, read as read_call, free_counts, repair as repair_call};
ghost use Rattle.gpt_model.specs.Calls.{check as check_call, edit};
ghost use Rattle.gpt_model.specs.Calls.{add as add_call, delete as delete_call, resize as resize_call, rename as rename_call};
ghost use Rattle.gpt_places.specs.Invariants.{Legal};
ghost use Rattle.gpt_places.specs.Sides.{side_of};
ghost use Rattle.gpt_copies.specs.States.{state_number};
ghost use Rattle.gpt_calls.specs.Answers.{done_of, reading_of, added_of, counted_of, offending_of, handed, entries_of, entries_on};

use gpt_checks::Refusal;
use gpt_copies::State;
use gpt_model::{Block, NewPartition, Rule, Shape};
use gpt_places::{Disk, Side};
use gpt_room::Free;

// The slot that an add took, and the first block of its partition.
#[derive(Clone, Copy)]
pub struct Added {
    pub slot: u64,
    pub first: Block,
}

// Writes both copies with no entries, and block 0.
pub fn format(
    head: &mut [u8],
    tail: &mut [u8],
    n: u64,
    shape: Shape,
    guid: [u8; 16],
) -> Result<(), Refusal>
    requires { Legal shape }
    ensures { outcome (done_of result) head.new tail.new ≡ format_on shape n guid head.old tail.old }
{
    let disk = gpt_checks::format(&head[..], &tail[..], n, shape, &guid)?;
    gpt_copies::writing::fresh(head, Side::Primary, disk, &guid);
    gpt_copies::writing::fresh(tail, Side::Backup, disk, &guid);
    Ok(())
}

// The state of the two copies.
pub fn read(head: &[u8], tail: &[u8], n: u64, shape: Shape) -> Result<State, Refusal>
    requires { Legal shape }
    ensures { outcome (reading_of result) head.now tail.now ≡ step shape n head.now tail.now read_call }
{
    let disk = gpt_checks::lent(head, tail, n, shape)?;
    gpt_copies::reading::state(head, tail, disk).ok_or(Refusal::NeitherGood)
}

// Gives a partition's slot back.
pub fn delete(
    head: &mut [u8],
    tail: &mut [u8],
    n: u64,
    shape: Shape,
    slot: u64,
) -> Result<(), Refusal>
    requires { Legal shape }
    ensures { outcome (done_of result) head.new tail.new
        ≡ step shape n head.old tail.old (edit (delete_call slot)) }
{
    let disk = gpt_checks::delete(&head[..], &tail[..], n, shape, slot)?;
    gpt_edits::delete(head, tail, disk, slot);
    Ok(())
}

// Takes the lowest unused slot and the lowest multiple of the alignment with enough free blocks from it on.
pub fn add(
    head: &mut [u8],
    tail: &mut [u8],
    n: u64,
    shape: Shape,
    p: NewPartition,
) -> Result<Added, Refusal>
    requires { Legal shape }
    ensures { outcome (added_of result) head.new tail.new
        ≡ step shape n head.old tail.old (edit (add_call p)) }
{
    let start = gpt_checks::add(&head[..], &tail[..], n, shape, p)?;
    let slot = gpt_edits::add(head, tail, start.disk, p, start.first);
    Ok(Added {
        slot,
        first: start.first,
    })
}

// Sets a partition's last block, for the size asked.
pub fn resize(
    head: &mut [u8],
    tail: &mut [u8],
    n: u64,
    shape: Shape,
    slot: u64,
    size: u64,
) -> Result<(), Refusal>
    requires { Legal shape }
    ensures { outcome (done_of result) head.new tail.new
        ≡ step shape n head.old tail.old (edit (resize_call slot size)) }
{
    let disk = gpt_checks::resize(&head[..], &tail[..], n, shape, slot, size)?;
    gpt_edits::resize(head, tail, disk, slot, size);
    Ok(())
}

// Sets a partition's name.
pub fn rename(
    head: &mut [u8],
    tail: &mut [u8],
    n: u64,
    shape: Shape,
    slot: u64,
    name: [u16; 36],
) -> Result<(), Refusal>
    requires { Legal shape }
    ensures { outcome (done_of result) head.new tail.new
        ≡ step shape n head.old tail.old (edit (rename_call slot name)) }
{
    let disk = gpt_checks::rename(&head[..], &tail[..], n, shape, slot, &name)?;
    gpt_edits::rename(head, tail, disk, slot, &name);
    Ok(())
}

// Writes the other copy from the good one, and answers the state found.
pub fn repair(head: &mut [u8], tail: &mut [u8], n: u64, shape: Shape) -> Result<State, Refusal>
    requires { Legal shape }
    ensures { outcome (reading_of result) head.new tail.new ≡ step shape n head.old tail.old repair_call }
{
    let found = read(&head[..], &tail[..], n, shape)?;
    let disk = Disk { shape, n };
    match found {
        State::Both => {}
        State::Differ | State::PrimaryOnly => gpt_edits::repair(
            tail,
            Side::Backup,
            &head[..],
            disk,
        ),
        State::BackupOnly => gpt_edits::repair(head, Side::Primary, &tail[..], disk),
    }
    Ok(found)
}

// The copy that reading uses in a state.
fn side_used(state: State) -> Side
    ensures { side_of result ≡ used_side (state_number (Some state)) }
{
    match state {
        State::Both | State::Differ | State::PrimaryOnly => Side::Primary,
        State::BackupOnly => Side::Backup,
    }
}

// The 16,384 entry bytes of that copy, inside the head or the tail: a slice, since std's `as_array` does not tell where its part lies (D11).
fn used_table<'a>(head: &'a [u8], tail: &'a [u8], shape: Shape, state: State) -> &'a [u8]
    requires { (lengths_ok shape head.now tail.now ≡ true) × Legal shape }
    ensures part { handed result.now result.ref_ptr ≡ entries_of shape head.now tail.now head.entry.ref_ptr tail.entry.ref_ptr (Ok state) }
    ensures whole { length result.now ≡ table_bytes }
{
    match side_used(state) {
        Side::Primary => gpt_places::entries_in(head, Side::Primary, shape),
        Side::Backup => gpt_places::entries_in(tail, Side::Backup, shape),
    }
}

// The 16,384 entry bytes inside the buffer whose copy a reading of head and tail uses, so that the disk is judged once for state and part.
// Empty where the reading was refused, or where head or tail has a wrong length.
pub fn entries<'a>(
    head: &'a [u8],
    tail: &'a [u8],
    shape: Shape,
    found: Result<State, Refusal>,
) -> &'a [u8]
    requires { Legal shape }
    ensures { handed result.now result.ref_ptr ≡ entries_on shape head.now tail.now head.entry.ref_ptr tail.entry.ref_ptr found }
{
    match found {
        Ok(state) if gpt_checks::lengths_ok(head, tail, shape) => used_table(
            head, tail, shape, state,
        ),
        _ => &head[0..0],
    }
}

// Usable blocks in no partition, and the longest run of such.
pub fn free_counts(head: &[u8], tail: &[u8], n: u64, shape: Shape) -> Result<Free, Refusal>
    requires { Legal shape }
    ensures { outcome (counted_of result) head.now tail.now ≡ step shape n head.now tail.now free_counts }
{
    let state = read(head, tail, n, shape)?;
    let table = gpt_table::as_table(used_table(head, tail, shape, state));
    let disk = Disk { shape, n };
    Ok(gpt_room::free_counts(table, disk.first_usable(), disk.last_usable()))
}

// k3: the check answers the first used slot that offends, if one does. By the copy that reading uses
pub fn check(
    head: &[u8],
    tail: &[u8],
    n: u64,
    shape: Shape,
    rule: Rule,
) -> Result<Option<u64>, Refusal>
    requires { Legal shape }
    ensures { outcome (offending_of result) head.now tail.now ≡ step shape n head.now tail.now (check_call rule) }
{
    let state = read(head, tail, n, shape)?;
    let table = gpt_table::as_table(used_table(head, tail, shape, state));
    Ok(gpt_attributes::first_offending(table, rule))
}
