#![tactic(auto)]

// Attribute bits: whether a number offends a rule, and the first used entry of a table that does.
// An inner crate: no user calls it, so its functions may have a `requires`, which each caller meets.
ghost use Rattle.std.specs.Prelude.{◌≡◌, ◌+◌, option_map, position};
ghost use Rattle.gpt_model.specs.Attributes.{offends as offends_by, used_offends};

use gpt_model::Rule;
use gpt_table::{Entry, Table};

// D5: attributes 48
const ATTRIBUTES_AT: usize = 48;

// k1: Some firmware wants attribute bits 1 to 47 zero; today only 3 to 47 are. Bits 3 to 47 are the 45 bits from 8 on, bits 1 to 47 the 47 bits from 2 on.
const PRESENT_BITS: u64 = 35184372088832;

const EARLIER_BITS: u64 = 140737488355328;

pub fn offends(rule: Rule, attributes: u64) -> bool
    ensures { result ≡ offends_by rule attributes }
{
    match rule {
        Rule::Present => attributes / 8 % PRESENT_BITS != 0,
        Rule::Earlier => attributes / 2 % EARLIER_BITS != 0,
    }
}

// The entry is used and offends.
fn used_offends(e: &Entry, rule: Rule) -> bool
    ensures { result ≡ used_offends rule e.now }
{
    !gpt_table::is_unused(e) && offends(rule, octets::load(e, ATTRIBUTES_AT))
}

// k3: the first used slot that offends, counted from 1.
pub fn first_offending(t: &Table, rule: Rule) -> Option<u64>
    ensures { result ≡ option_map (λ i. i + 1) (position (used_offends rule) t.now) }
{
    t.iter()
        .position(|e| used_offends(e, rule))
        .map(|i| i as u64 + 1)
}
