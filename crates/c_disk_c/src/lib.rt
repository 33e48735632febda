#![tactic(auto)]

// The exports of the GPT calls for C: each calls the function of `c_disk` that has its name, and promises what that one promises.
// One function each stays: the C interface has a name and a signature for each.
ghost use Rattle.std.specs.Prelude.{◌≡◌, [], ◌∷◌};
ghost use Rattle.gpt_model.specs.Sizes.{step_by, format_by};
ghost use Rattle.gpt_model.specs.Calls.{read as read_call, free_counts, repair as repair_call, check as check_call, edit, delete as delete_call};
ghost use Rattle.gpt_model.specs.Calls.{resize as resize_call, rename as rename_call, add as add_call, new_partition};
ghost use Rattle.c_disk.specs.Effects.{rule_numbered, gpt_effect, table_place_by};

#[unsafe(no_mangle)]
pub extern "C" fn usi_gpt_format(
    head: &mut [u8],
    tail: &mut [u8],
    n: u64,
    block: u64,
    guid: &[u8],
) -> u32
    ensures { record { result = result; head = head.new; tail = tail.new; values = [] }
        ≡ gpt_effect [] (format_by block n guid.now head.old tail.old) }
{
    c_disk::usi_gpt_format(head, tail, n, block, guid)
}

#[unsafe(no_mangle)]
pub extern "C" fn usi_gpt_read(head: &[u8], tail: &[u8], n: u64, block: u64, state: &mut u64) -> u32
    ensures { record { result = result; head = head.now; tail = tail.now; values = state.new ∷ [] }
        ≡ gpt_effect (state.old ∷ []) (step_by block n head.now tail.now read_call) }
{
    c_disk::usi_gpt_read(head, tail, n, block, state)
}

#[unsafe(no_mangle)]
pub extern "C" fn usi_gpt_delete(
    head: &mut [u8],
    tail: &mut [u8],
    n: u64,
    block: u64,
    slot: u64,
) -> u32
    ensures { record { result = result; head = head.new; tail = tail.new; values = [] }
        ≡ gpt_effect [] (step_by block n head.old tail.old (edit (delete_call slot))) }
{
    c_disk::usi_gpt_delete(head, tail, n, block, slot)
}

#[unsafe(no_mangle)]
pub extern "C" fn usi_gpt_resize(
    head: &mut [u8],
    tail: &mut [u8],
    n: u64,
    block: u64,
    slot: u64,
    size: u64,
) -> u32
    ensures { record { result = result; head = head.new; tail = tail.new; values = [] }
        ≡ gpt_effect [] (step_by block n head.old tail.old (edit (resize_call slot size))) }
{
    c_disk::usi_gpt_resize(head, tail, n, block, slot, size)
}

#[unsafe(no_mangle)]
pub extern "C" fn usi_gpt_free(
    head: &[u8],
    tail: &[u8],
    n: u64,
    block: u64,
    free: &mut u64,
    longest: &mut u64,
) -> u32
    ensures { record { result = result; head = head.now; tail = tail.now; values = free.new ∷ longest.new ∷ [] }
        ≡ gpt_effect (free.old ∷ longest.old ∷ []) (step_by block n head.now tail.now free_counts) }
{
    c_disk::usi_gpt_free(head, tail, n, block, free, longest)
}

#[unsafe(no_mangle)]
pub extern "C" fn usi_gpt_repair(
    head: &mut [u8],
    tail: &mut [u8],
    n: u64,
    block: u64,
    state: &mut u64,
) -> u32
    ensures { record { result = result; head = head.new; tail = tail.new; values = state.new ∷ [] }
        ≡ gpt_effect (state.old ∷ []) (step_by block n head.old tail.old repair_call) }
{
    c_disk::usi_gpt_repair(head, tail, n, block, state)
}

#[unsafe(no_mangle)]
pub extern "C" fn usi_gpt_rename(
    head: &mut [u8],
    tail: &mut [u8],
    n: u64,
    block: u64,
    slot: u64,
    name: &[u16],
) -> u32
    ensures { record { result = result; head = head.new; tail = tail.new; values = [] }
        ≡ gpt_effect [] (step_by block n head.old tail.old (edit (rename_call slot name.now))) }
{
    c_disk::usi_gpt_rename(head, tail, n, block, slot, name)
}

#[unsafe(no_mangle)]
pub extern "C" fn usi_gpt_add(
    head: &mut [u8],
    tail: &mut [u8],
    n: u64,
    block: u64,
    kind: &[u8],
    unique: &[u8],
    size: u64,
    alignment: u64,
    attributes: u64,
    rule: u64,
    name: &[u16],
    slot: &mut u64,
    first: &mut u64,
) -> u32
    ensures { record { result = result; head = head.new; tail = tail.new; values = slot.new ∷ first.new ∷ [] }
        ≡ gpt_effect (slot.old ∷ first.old ∷ [])
        (step_by block n head.old tail.old
        (edit (add_call (new_partition kind.now unique.now size alignment attributes (rule_numbered rule) name.now)))) }
{
    c_disk::usi_gpt_add(
        head, tail, n, block, kind, unique, size, alignment, attributes, rule, name, slot, first,
    )
}

#[unsafe(no_mangle)]
pub extern "C" fn usi_gpt_table(
    head: &[u8],
    tail: &[u8],
    n: u64,
    block: u64,
    in_tail: &mut u64,
    offset: &mut u64,
) -> u32
    ensures { record { result = result; head = head.now; tail = tail.now; values = in_tail.new ∷ offset.new ∷ [] }
        ≡ gpt_effect (in_tail.old ∷ offset.old ∷ []) (table_place_by block n head.now tail.now) }
{
    c_disk::usi_gpt_table(head, tail, n, block, in_tail, offset)
}

#[unsafe(no_mangle)]
pub extern "C" fn usi_gpt_check(
    head: &[u8],
    tail: &[u8],
    n: u64,
    block: u64,
    rule: u64,
    slot: &mut u64,
) -> u32
    ensures { record { result = result; head = head.now; tail = tail.now; values = slot.new ∷ [] }
        ≡ gpt_effect (slot.old ∷ []) (step_by block n head.now tail.now (check_call (rule_numbered rule))) }
{
    c_disk::usi_gpt_check(head, tail, n, block, rule, slot)
}
