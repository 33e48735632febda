#![tactic(auto, using(crate::proofs::Reading::by_shape))]

// The GPT calls on a disk of 512-byte or 4,096-byte blocks. The caller lends the head (blocks 0 to 33, or 0 to 5) and the tail (the last 33 blocks, or 5),
// and says N, the number of blocks, and the bytes of a block.
// Every call takes any buffers and any numbers; its contract is one equation with `format_by` or `step_by` of gpt_model, for its answer and both buffers.
// A call asks for the shape of its block size first, then gpt_calls on a disk of that shape.
ghost use Rattle.std.specs.Prelude.{◌≡◌, ok_or, IfOk};
ghost use Rattle.gpt_model.specs.Calls.{outcome, read as read_call, free_counts, repair as repair_call, check as check_call, edit};
ghost use Rattle.gpt_model.specs.Calls.{add as add_call, delete as delete_call, resize as resize_call, rename as rename_call};
ghost use Rattle.gpt_model.specs.Sizes.{shape_of, step_by, format_by};
ghost use Rattle.gpt_places.specs.Invariants.{Legal};
ghost use Rattle.gpt_checks.specs.Refusals.{number_of};
ghost use Rattle.gpt_checks.specs.declared.Refusal.TheVariants.{BlockSize};
ghost use Rattle.gpt_calls.specs.Answers.{done_of, reading_of, added_of, counted_of, offending_of, handed};
ghost use Rattle.gpt.specs.Parts.{entries_by, handed_part};

use gpt_calls::Added;
use gpt_checks::Refusal;
use gpt_copies::State;
use gpt_model::{NewPartition, Rule, Shape};
use gpt_room::Free;

// The number of a refusal. A match stays: W15 gives each case its number, and the edits number_other and number_length_accepted change one arm each.
pub fn number(a: Refusal) -> u32
    ensures { result ≡ number_of a }
{
    match a {
        Refusal::BlockSize => 6,
        Refusal::WrongLength => 1,
        Refusal::BlockCount => 2,
        Refusal::NoDiskGuid => 3,
        Refusal::NeitherGood => 10,
        Refusal::NotTheSame => 11,
        Refusal::NoSuchSlot => 12,
        Refusal::SlotUnused => 13,
        Refusal::NoSize => 20,
        Refusal::Alignment => 27,
        Refusal::NoType => 21,
        Refusal::NoUniqueGuid => 22,
        Refusal::BadName => 23,
        Refusal::NameTaken => 26,
        Refusal::AttributeBits => 28,
        Refusal::NoUnusedSlot => 24,
        Refusal::NoRoom => 25,
    }
}

// 6, before all others: the block size has no shape.
fn shape_of(block: u64) -> Result<Shape, Refusal>
    ensures shape { result ≡ ok_or (shape_of block) BlockSize }
    ensures legal { IfOk result Legal }
{
    gpt_places::shape_of(block).ok_or(Refusal::BlockSize)
}

// Writes both copies with no entries, and block 0.
pub fn format(
    head: &mut [u8],
    tail: &mut [u8],
    n: u64,
    block: u64,
    guid: [u8; 16],
) -> Result<(), Refusal>
    ensures { outcome (done_of result) head.new tail.new
        ≡ format_by block n guid head.old tail.old }
{
    gpt_calls::format(head, tail, n, shape_of(block)?, guid)
}

// The state of the two copies.
pub fn read(head: &[u8], tail: &[u8], n: u64, block: u64) -> Result<State, Refusal>
    ensures { outcome (reading_of result) head.now tail.now
        ≡ step_by block n head.now tail.now read_call }
{
    gpt_calls::read(head, tail, n, shape_of(block)?)
}

// Gives a partition's slot back.
pub fn delete(
    head: &mut [u8],
    tail: &mut [u8],
    n: u64,
    block: u64,
    slot: u64,
) -> Result<(), Refusal>
    ensures { outcome (done_of result) head.new tail.new
        ≡ step_by block n head.old tail.old (edit (delete_call slot)) }
{
    gpt_calls::delete(head, tail, n, shape_of(block)?, slot)
}

// Takes the lowest unused slot and the lowest multiple of the alignment with enough free blocks from it on.
pub fn add(
    head: &mut [u8],
    tail: &mut [u8],
    n: u64,
    block: u64,
    p: NewPartition,
) -> Result<Added, Refusal>
    ensures { outcome (added_of result) head.new tail.new
        ≡ step_by block n head.old tail.old (edit (add_call p)) }
{
    gpt_calls::add(head, tail, n, shape_of(block)?, p)
}

// Sets a partition's last block, for the size asked.
pub fn resize(
    head: &mut [u8],
    tail: &mut [u8],
    n: u64,
    block: u64,
    slot: u64,
    size: u64,
) -> Result<(), Refusal>
    ensures { outcome (done_of result) head.new tail.new
        ≡ step_by block n head.old tail.old (edit (resize_call slot size)) }
{
    gpt_calls::resize(head, tail, n, shape_of(block)?, slot, size)
}

// Sets a partition's name.
pub fn rename(
    head: &mut [u8],
    tail: &mut [u8],
    n: u64,
    block: u64,
    slot: u64,
    name: [u16; 36],
) -> Result<(), Refusal>
    ensures { outcome (done_of result) head.new tail.new
        ≡ step_by block n head.old tail.old (edit (rename_call slot name)) }
{
    gpt_calls::rename(head, tail, n, shape_of(block)?, slot, name)
}

// Writes the other copy from the good one, and answers the state found.
pub fn repair(head: &mut [u8], tail: &mut [u8], n: u64, block: u64) -> Result<State, Refusal>
    ensures { outcome (reading_of result) head.new tail.new
        ≡ step_by block n head.old tail.old repair_call }
{
    gpt_calls::repair(head, tail, n, shape_of(block)?)
}

// The 16,384 entry bytes inside the buffer whose copy a reading of head and tail uses, so that the disk is judged once for state and part.
// Empty where the reading was refused, where the block size has no shape, or where head or tail has a wrong length.
pub fn entries<'a>(
    head: &'a [u8],
    tail: &'a [u8],
    block: u64,
    found: Result<State, Refusal>,
) -> &'a [u8]
    ensures { handed result.now result.ref_ptr ≡ entries_by block head.now tail.now head.entry.ref_ptr tail.entry.ref_ptr found }
{
    match shape_of(block) {
        Ok(shape) => gpt_calls::entries(head, tail, shape, found),
        Err(_) => &head[0..0],
    }
}

// Reading and its part in one: the 16,384 entry bytes inside the buffer whose copy is used; empty on a refusal.
pub fn table<'a>(head: &'a [u8], tail: &'a [u8], n: u64, block: u64) -> &'a [u8]
    ensures { handed result.now result.ref_ptr ≡ handed_part block n head.now tail.now head.entry.ref_ptr tail.entry.ref_ptr }
{
    entries(head, tail, block, read(head, tail, n, block))
}

// Usable blocks in no partition, and the longest run of such.
pub fn free_counts(head: &[u8], tail: &[u8], n: u64, block: u64) -> Result<Free, Refusal>
    ensures { outcome (counted_of result) head.now tail.now
        ≡ step_by block n head.now tail.now free_counts }
{
    gpt_calls::free_counts(head, tail, n, shape_of(block)?)
}

// k3: the check answers the first used slot that offends, if one does. By the copy that reading uses
pub fn check(
    head: &[u8],
    tail: &[u8],
    n: u64,
    block: u64,
    rule: Rule,
) -> Result<Option<u64>, Refusal>
    ensures { outcome (offending_of result) head.now tail.now
        ≡ step_by block n head.now tail.now (check_call rule) }
{
    gpt_calls::check(head, tail, n, shape_of(block)?, rule)
}
