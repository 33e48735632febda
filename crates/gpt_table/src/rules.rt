// The rules of a table: of each entry by itself, then of each two used entries, on numbers decoded once and put in order.
ghost use Rattle.std.specs.Prelude.{◌≡◌, map};
ghost use Rattle.octets.specs.Tests.{all, pairs};
ghost use Rattle.gpt_model.specs.Table.{bounded as bounded_in, apart, range_of, entry_ok};
ghost use Rattle.gpt_table.specs.Invariants.{good_entries, blocks_of, used, differ, guid_of, NoneEmpty};

use crate::order::{self, Range};
use crate::{Entry, FIRST_AT, FromEntry, SLOTS, Table, UNIQUE_AT};
use gpt_model::Block;

fn bounded(r: Range, first: Block, last: Block) -> bool
    ensures { result ≡ bounded_in first.0 last.0 (blocks_of r) }
{
    first.0 <= r.first.0 && r.first.0 <= r.last.0 && r.last.0 <= last.0
}

fn entry_ok(e: &Entry, first: Block, last: Block) -> bool
    ensures { result ≡ entry_ok first.0 last.0 e.now }
{
    crate::is_unused(e)
        || !octets::is_zero(&e[UNIQUE_AT..FIRST_AT]) && bounded(Range::from_entry(e), first, last)
}

fn entries_ok(t: &Table, first: Block, last: Block) -> bool
    ensures { result ≡ all (entry_ok first.0 last.0) t.now }
{
    t.iter().all(|e| entry_ok(e, first, last))
}

// A unique GUID as one number.
impl FromEntry for u128 {
    ghost meaning = { guid_of };

    fn from_entry(e: &Entry) -> u128 {
        let low: u64 = octets::load(e, UNIQUE_AT);
        let high: u64 = octets::load(e, UNIQUE_AT + 8);
        u128::from(low) + 18446744073709551616 * u128::from(high)
    }
}

// The unique GUIDs of used entries differ: in order, each is below the next.
fn guids_differ(t: &Table) -> bool
    ensures { result ≡ pairs differ (used t.now) }
{
    let mut room = [0; SLOTS];
    let count = crate::decode(t, None, &mut room);
    let guids = &mut room[..count];
    guids.sort_unstable();
    guids.is_sorted_by(|a, b| a < b)
}

// The ranges of used entries share no block: in order, each begins behind the one before it.
fn ranges_apart(t: &Table) -> bool
    requires { NoneEmpty (used t.now) }
    ensures { result ≡ pairs apart (map range_of (used t.now)) }
{
    let mut room = [Range::NONE; SLOTS];
    let ranges = order::ranges(t, None, &mut room);
    ranges.is_sorted_by(|a, b| a.last.0 < b.first.0)
}

// All entries keep the rules.
pub fn table_ok(t: &Table, first: Block, last: Block) -> bool
    ensures { result ≡ good_entries first.0 last.0 t.now }
{
    entries_ok(t, first, last) && guids_differ(t) && ranges_apart(t)
}
