#![tactic(auto, using(crate::proofs::Effects::told))]

// The GPT calls for C. Each contract is one equation with `format_by` or `step_by` of gpt_model, for the result, both buffers and the number answers
// afterwards.
ghost use Rattle.std.specs.Prelude.{◌≡◌, ◌≢◌, [], ◌∷◌, Ok, Some};
ghost use Rattle.gpt_model.specs.Sizes.{shape_of, step_by, format_by};
ghost use Rattle.gpt_model.specs.Calls.{read as read_call, free_counts, repair as repair_call, check as check_call, edit, delete as delete_call};
ghost use Rattle.gpt_model.specs.Calls.{resize as resize_call, rename as rename_call, add as add_call, new_partition};
ghost use Rattle.gpt_places.specs.Invariants.{Legal};
ghost use Rattle.gpt_calls.specs.Answers.{done_of, reading_of, counted_of, added_of, offending_of};
ghost use Rattle.c_disk.specs.Effects.{rule_numbered, result_of, values_of, gpt_effect, table_place, table_place_by, length_number};

use gpt_calls::Added;
use gpt_checks::Refusal;
use gpt_copies::State;
use gpt_model::{NewPartition, Rule, Shape};
use gpt_places::Side;
use gpt_room::Free;

// 0 where the call is accepted, else the number of its refusal.
fn code(a: Result<(), Refusal>) -> u32
    ensures { result ≡ result_of (done_of a) }
{
    match a {
        Ok(()) => 0,
        Err(r) => gpt::number(r),
    }
}

// What a call gives is written behind the pointers for it; on a refusal they keep what they have.
fn reading(a: Result<State, Refusal>, state: &mut u64) -> Result<(), Refusal>
    ensures code { result_of (done_of result) ≡ result_of (reading_of a) }
    ensures values { (state.new ∷ []) ≡ values_of (state.old ∷ []) (reading_of a) }
{
    *state = a? as u64;
    Ok(())
}

fn counted(a: Result<Free, Refusal>, free: &mut u64, longest: &mut u64) -> Result<(), Refusal>
    ensures code { result_of (done_of result) ≡ result_of (counted_of a) }
    ensures values { (free.new ∷ longest.new ∷ []) ≡ values_of (free.old ∷ longest.old ∷ []) (counted_of a) }
{
    let counts = a?;
    *free = counts.blocks;
    *longest = counts.longest;
    Ok(())
}

fn added(a: Result<Added, Refusal>, slot: &mut u64, first: &mut u64) -> Result<(), Refusal>
    ensures code { result_of (done_of result) ≡ result_of (added_of a) }
    ensures values { (slot.new ∷ first.new ∷ []) ≡ values_of (slot.old ∷ first.old ∷ []) (added_of a) }
{
    let new = a?;
    *slot = new.slot;
    *first = new.first.0;
    Ok(())
}

// No check answers slot 0 (offending_of).
fn offending(a: Result<Option<u64>, Refusal>, slot: &mut u64) -> Result<(), Refusal>
    requires { a ≢ Ok (Some 0) }
    ensures code { result_of (done_of result) ≡ result_of (offending_of a) }
    ensures values { (slot.new ∷ []) ≡ values_of (slot.old ∷ []) (offending_of a) }
{
    *slot = a?.unwrap_or(0);
    Ok(())
}

fn place(
    a: Result<State, Refusal>,
    shape: Shape,
    in_tail: &mut u64,
    offset: &mut u64,
) -> Result<(), Refusal>
    requires { Legal shape }
    ensures code { result_of (done_of result) ≡ result_of (table_place shape (reading_of a)) }
    ensures values { (in_tail.new ∷ offset.new ∷ []) ≡ values_of (in_tail.old ∷ offset.old ∷ []) (table_place shape (reading_of a)) }
{
    match a? {
        State::Both | State::Differ | State::PrimaryOnly => {
            *in_tail = 0;
            *offset = gpt_places::entries_at(Side::Primary, shape) as u64;
        }
        State::BackupOnly => {
            *in_tail = 1;
            *offset = gpt_places::entries_at(Side::Backup, shape) as u64;
        }
    }
    Ok(())
}

// The rule of a number, as C names it.
fn rule_of(rule: u64) -> Rule
    ensures { result ≡ rule_numbered rule }
{
    match rule {
        0 => Rule::Present,
        _ => Rule::Earlier,
    }
}

// Where a GUID or a name has a wrong length: 6 for another block size, else 1.
fn wrong_length(block: u64) -> u32
    ensures { result ≡ length_number (shape_of block) }
{
    match gpt_places::shape_of(block) {
        Some(_) => gpt::number(Refusal::WrongLength),
        None => gpt::number(Refusal::BlockSize),
    }
}

pub fn usi_gpt_format(head: &mut [u8], tail: &mut [u8], n: u64, block: u64, guid: &[u8]) -> u32
    ensures { record { result = result; head = head.new; tail = tail.new; values = [] }
        ≡ gpt_effect [] (format_by block n guid.now head.old tail.old) }
{
    let Ok(guid) = guid.try_into() else {
        return wrong_length(block);
    };
    code(gpt::format(head, tail, n, block, guid))
}

pub fn usi_gpt_read(head: &[u8], tail: &[u8], n: u64, block: u64, state: &mut u64) -> u32
    ensures { record { result = result; head = head.now; tail = tail.now; values = state.new ∷ [] }
        ≡ gpt_effect (state.old ∷ []) (step_by block n head.now tail.now read_call) }
{
    code(reading(gpt::read(head, tail, n, block), state))
}

pub fn usi_gpt_delete(head: &mut [u8], tail: &mut [u8], n: u64, block: u64, slot: u64) -> u32
    ensures { record { result = result; head = head.new; tail = tail.new; values = [] }
        ≡ gpt_effect [] (step_by block n head.old tail.old (edit (delete_call slot))) }
{
    code(gpt::delete(head, tail, n, block, slot))
}

pub fn usi_gpt_resize(
    head: &mut [u8],
    tail: &mut [u8],
    n: u64,
    block: u64,
    slot: u64,
    size: u64,
) -> u32
    ensures { record { result = result; head = head.new; tail = tail.new; values = [] }
        ≡ gpt_effect [] (step_by block n head.old tail.old (edit (resize_call slot size))) }
{
    code(gpt::resize(head, tail, n, block, slot, size))
}

pub fn usi_gpt_free(
    head: &[u8],
    tail: &[u8],
    n: u64,
    block: u64,
    free: &mut u64,
    longest: &mut u64,
) -> u32
    ensures { record { result = result; head = head.now; tail = tail.now; values = free.new ∷ longest.new ∷ [] }
        ≡ gpt_effect (free.old ∷ longest.old ∷ []) (step_by block n head.now tail.now free_counts) }
{
    code(counted(gpt::free_counts(head, tail, n, block), free, longest))
}

pub fn usi_gpt_repair(head: &mut [u8], tail: &mut [u8], n: u64, block: u64, state: &mut u64) -> u32
    ensures { record { result = result; head = head.new; tail = tail.new; values = state.new ∷ [] }
        ≡ gpt_effect (state.old ∷ []) (step_by block n head.old tail.old repair_call) }
{
    code(reading(gpt::repair(head, tail, n, block), state))
}

pub fn usi_gpt_rename(
    head: &mut [u8],
    tail: &mut [u8],
    n: u64,
    block: u64,
    slot: u64,
    name: &[u16],
) -> u32
    ensures { record { result = result; head = head.new; tail = tail.new; values = [] }
        ≡ gpt_effect [] (step_by block n head.old tail.old (edit (rename_call slot name.now))) }
{
    let Ok(name) = name.try_into() else {
        return wrong_length(block);
    };
    code(gpt::rename(head, tail, n, block, slot, name))
}

pub fn usi_gpt_add(
    head: &mut [u8],
    tail: &mut [u8],
    n: u64,
    block: u64,
    kind: &[u8],
    unique: &[u8],
    size: u64,
    alignment: u64,
    attributes: u64,
    rule: u64,
    name: &[u16],
    slot: &mut u64,
    first: &mut u64,
) -> u32
    ensures { record { result = result; head = head.new; tail = tail.new; values = slot.new ∷ first.new ∷ [] }
        ≡ gpt_effect (slot.old ∷ first.old ∷ [])
        (step_by block n head.old tail.old
        (edit (add_call (new_partition kind.now unique.now size alignment attributes (rule_numbered rule) name.now)))) }
{
    let Ok(kind) = kind.try_into() else {
        return wrong_length(block);
    };
    let Ok(unique) = unique.try_into() else {
        return wrong_length(block);
    };
    let Ok(name) = name.try_into() else {
        return wrong_length(block);
    };
    let p = NewPartition {
        kind,
        unique,
        size,
        alignment,
        attributes,
        rule: rule_of(rule),
        name,
    };
    code(added(gpt::add(head, tail, n, block, p), slot, first))
}

pub fn usi_gpt_table(
    head: &[u8],
    tail: &[u8],
    n: u64,
    block: u64,
    in_tail: &mut u64,
    offset: &mut u64,
) -> u32
    ensures { record { result = result; head = head.now; tail = tail.now; values = in_tail.new ∷ offset.new ∷ [] }
        ≡ gpt_effect (in_tail.old ∷ offset.old ∷ []) (table_place_by block n head.now tail.now) }
{
    match gpt_places::shape_of(block) {
        Some(shape) => code(place(gpt::read(head, tail, n, block), shape, in_tail, offset)),
        None => gpt::number(Refusal::BlockSize),
    }
}

pub fn usi_gpt_check(head: &[u8], tail: &[u8], n: u64, block: u64, rule: u64, slot: &mut u64) -> u32
    ensures { record { result = result; head = head.now; tail = tail.now; values = slot.new ∷ [] }
        ≡ gpt_effect (slot.old ∷ []) (step_by block n head.now tail.now (check_call (rule_numbered rule))) }
{
    code(offending(gpt::check(head, tail, n, block, rule_of(rule)), slot))
}
