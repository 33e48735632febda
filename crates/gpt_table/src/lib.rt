#![tactic(auto)]

// The judges over a GPT table: reading entries here, their ranges put in order in `order`, the table's rules in `rules`.
// An inner crate: no user calls it, so its functions may have a `requires`, which each caller meets.
pub mod order;
pub mod rules;

ghost use Rattle.std.specs.Prelude.{◌≡◌, List, [], ℕ, ◌+◌, ◌≤◌, ◌<◌, length, get_or, position};
ghost use Rattle.octets.specs.Tests.{any};
ghost use Rattle.octets.specs.Bytes.{part};
ghost use Rattle.gpt_model.specs.Table.{entry_bytes, slot_count, table_bytes, unused, entries};
ghost use Rattle.gpt_model.specs.Calls.{carries, bad_name};
ghost use Rattle.gpt_table.specs.Invariants.{without, wanted, Whole, used, Decoded};

// D1: count 128
pub const SLOTS: usize = 128;

// D1: entry size 128
pub const ENTRY: usize = 128;

// The bytes of an entry, and the entries of a table.
pub type Entry = [u8; ENTRY];

pub type Table = [Entry; SLOTS];

// Where an entry has its unique GUID, behind the type GUID, and its first and last block (D5).
pub const UNIQUE_AT: usize = 16;

pub const FIRST_AT: usize = 32;

pub const LAST_AT: usize = 40;

// The table that 16,384 entry bytes are.
pub fn as_table(bytes: &[u8]) -> &Table
    requires { length bytes.now ≡ table_bytes }
    ensures { result.now ≡ entries bytes.now }
{
    let (all, _) = bytes.as_chunks::<ENTRY>();
    all.as_array::<SLOTS>().unwrap()
}

// The only function that knows how an unused entry is told (D6: when its type GUID is zero).
pub fn is_unused(e: &Entry) -> bool
    ensures { result ≡ unused e.now }
{
    octets::is_zero(&e[0..UNIQUE_AT])
}

// The lowest unused entry, if there is one.
pub fn first_unused(t: &Table) -> Option<usize>
    ensures { result ≡ position unused t.now }
{
    t.iter().position(|e| is_unused(e))
}

// Entry i, e, is used and not the one left out. As every entry it has 128 bytes, which the proofs of its callers learn here.
fn wanted(but: Option<usize>, i: usize, e: &Entry) -> bool
    ensures { (result ≡ wanted but i e.now) × Whole e.now }
{
    but != Some(i) && !is_unused(e)
}

// Some used entry but the one left out has these bytes from `at` on.
pub fn carried(t: &Table, but: Option<usize>, at: usize, bytes: &[u8]) -> bool
    requires { at + length bytes.now ≤ entry_bytes }
    ensures { result ≡ any (carries (part at (length bytes.now)) bytes.now) (without but t.now) }
{
    t.iter().enumerate().any(|(i, e)| wanted(but, i, e)
        && octets::same(&e[at..at + bytes.len()], bytes))
}

// A nonzero unit stands after a zero one.
pub fn bad_name(name: &[u16]) -> bool
    ensures { result ≡ bad_name name.now }
{
    name.iter().skip_while(|u| **u != 0).any(|u| *u != 0)
}

// What is read of a used entry.
pub trait FromEntry: Copy {
    ghost meaning: { List ℕ → Self };

    fn from_entry(e: &Entry) -> Self
        ensures { result ≡ meaning e.now };
}

// What is read of each used entry but the one left out, in front in `items`. Returns how many.
fn decode<T: FromEntry>(t: &Table, but: Option<usize>, items: &mut [T; SLOTS]) -> usize
    ensures { Decoded T.meaning (used (without but t.now)) items.new result }
{
    let mut n = 0;
    for (i, e) in t.iter().enumerate() {
        if wanted(but, i, e) {
            items[n] = T::from_entry(e);
            n += 1;
        }
    }
    n
}
