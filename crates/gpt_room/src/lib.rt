#![tactic(auto)]

// Room for partitions: one walk from gap to gap over the ranges in order. No sum of a block and a size is formed, so no size is too large.
// An inner crate: no user calls it, so its functions may have a `requires`, which each caller meets.
ghost use Rattle.std.specs.Prelude.{◌≡◌, map, suc, ◌+◌, ◌-◌, ◌≤◌, ◌<◌, max, leb};
ghost use Rattle.std.specs.List.Sorted.{IsNonDecreasingBy};
ghost use Rattle.octets.specs.Tests.{◌and◌};
ghost use Rattle.gpt_model.specs.Ranges.{in_none, MultipleOf, room_at, lowest_start, run_from};
ghost use Rattle.gpt_model.specs.Table.{slot_count, range_of};
ghost use Rattle.gpt_table.specs.Invariants.{blocks_of};
ghost use Rattle.gpt_room.specs.Answers.{placed, free_of, fits_in};
ghost use Rattle.gpt_room.specs.Invariants.{Behind, Next, Stands};

use gpt_model::Block;
use gpt_table::order::{self, Range};
use gpt_table::{FromEntry, SLOTS, Table};

// Usable blocks in no partition, and the longest run of such.
#[derive(Clone, Copy)]
pub struct Free {
    pub blocks: u64,
    pub longest: u64,
}

// What begins at a block: partitions up to and with block Taken, or a gap up to but without block Gap. Both have a block, so it is no Option.
#[derive(Clone, Copy)]
enum Ahead {
    Taken(Block),
    Gap(Block),
}

// The range has a block at a or behind it.
fn reaches(r: &Range, a: Block) -> bool
    ensures { result ≡ (leb r.now.first.0 r.now.last.0 and leb a.0 r.now.last.0) }
{
    r.first.0 <= r.last.0 && a.0 <= r.last.0
}

// How many blocks behind a the lowest multiple of the alignment stands.
fn padding(a: Block, alignment: u64) -> u64
    requires { 0 < alignment }
    ensures { (result < alignment) × MultipleOf alignment (a.0 + result) }
{
    let rest = a.0 % alignment;
    if rest == 0 { 0 } else { alignment - rest }
}

// A gap has that size behind its padding. It may end before the padding does.
fn has_room(gap: u64, padding: u64, size: u64) -> bool
    ensures { result ≡ leb (padding + size) gap }
{
    padding <= gap && size <= gap - padding
}

// The ranges of a table in order, and the last usable block.
#[derive(Clone, Copy)]
struct Walk<'a> {
    ranges: &'a [Range],
    last: Block,
    ghost ascending: { IsNonDecreasingBy (λ r. r.first.0) ranges.now },
    ghost least: { last.0 < 18446744073709551615 },
}

impl<'a> Walk<'a> {
    // What is left of the ranges from the first on that has a block at a or behind it.
    fn next(&self, rest: &'a [Range], a: Block) -> &'a [Range]
        requires { Behind self.now.ranges.now a.0 rest.now }
        ensures { Next self.now.ranges.now a.0 result.now }
    {
        let passed = rest
            .iter()
            .position(|r| reaches(r, a))
            .unwrap_or(rest.len());
        &rest[passed..]
    }

    // What begins at block a, where `rest` begins with the next range.
    fn look(&self, rest: &[Range], a: Block) -> Ahead
        requires { Next self.now.ranges.now a.0 rest.now × (a.0 ≤ self.now.last.0) }
        ensures { Stands (map blocks_of self.now.ranges.now) a.0 self.now.last.0 result }
    {
        let end = self.last.0 + 1;
        match rest.first() {
            None => Ahead::Gap(Block(end)),
            Some(r) if r.first.0 <= a.0 => Ahead::Taken(r.last),
            Some(r) => Ahead::Gap(Block(r.first.0.min(end))),
        }
    }

    // From gap to gap, up to one that is long enough from a multiple of the alignment on. It shares no loop with `tally`: a closure for each gap would
    // change what it captures, of which a proof learns nothing.
    fn search(&self, first: Block, size: u64, alignment: u64) -> Option<Block>
        requires { (0 < size) × (0 < alignment) }
        ensures { placed result ≡ lowest_start (map blocks_of self.now.ranges.now) first.0 self.now.last.0 size alignment }
    {
        let mut a = first;
        let mut rest = self.ranges;
        while a.0 <= self.last.0 {
            rest = self.next(rest, a);
            match self.look(rest, a) {
                Ahead::Taken(x) => {
                    if self.last.0 <= x.0 {
                        return None;
                    }
                    a = Block(x.0 + 1);
                }
                Ahead::Gap(g) => {
                    let d = padding(a, alignment);
                    if has_room(g.0 - a.0, d, size) {
                        return Some(Block(a.0 + d));
                    }
                    a = g;
                }
            }
        }
        None
    }

    // From gap to gap, each counted.
    fn tally(&self, first: Block) -> Free
        ensures { result ≡ free_of (map blocks_of self.now.ranges.now) first.0 self.now.last.0 }
    {
        let mut a = first;
        let mut rest = self.ranges;
        let mut free = Free {
            blocks: 0,
            longest: 0,
        };
        while a.0 <= self.last.0 {
            rest = self.next(rest, a);
            match self.look(rest, a) {
                Ahead::Taken(x) => {
                    if self.last.0 <= x.0 {
                        return free;
                    }
                    a = Block(x.0 + 1);
                }
                Ahead::Gap(g) => {
                    let gap = g.0 - a.0;
                    free = Free {
                        blocks: free.blocks + gap,
                        longest: free.longest.max(gap),
                    };
                    a = g;
                }
            }
        }
        free
    }

    // How many free blocks there are from block a on, up to the next that is taken or the last usable one.
    fn run(&self, a: Block) -> u64
        ensures { result ≡ run_from (in_none (map blocks_of self.now.ranges.now)) a.0 (suc self.now.last.0 - a.0) }
    {
        if self.last.0 < a.0 {
            return 0;
        }
        match self.look(self.next(self.ranges, a), a) {
            Ahead::Taken(_) => 0,
            Ahead::Gap(g) => g.0 - a.0,
        }
    }
}

// The lowest multiple of the alignment with enough free blocks from it on.
pub fn lowest(t: &Table, first: Block, last: Block, size: u64, alignment: u64) -> Option<Block>
    requires { (0 < size) × (0 < alignment) × (last.0 < 18446744073709551615) }
    ensures { placed result ≡ lowest_start (map range_of t.now) first.0 last.0 size alignment }
{
    let mut room = [Range::NONE; SLOTS];
    let ranges = order::ranges(t, None, &mut room);
    Walk { ranges, last }.search(first, size, alignment)
}

pub fn free_counts(t: &Table, first: Block, last: Block) -> Free
    requires { last.0 < 18446744073709551615 }
    ensures { result ≡ free_of (map range_of t.now) first.0 last.0 }
{
    let mut room = [Range::NONE; SLOTS];
    let ranges = order::ranges(t, None, &mut room);
    Walk { ranges, last }.tally(first)
}

// The free blocks from block a on.
pub fn run_at(t: &Table, a: Block, last: Block) -> u64
    requires { last.0 < 18446744073709551615 }
    ensures { result ≡ run_from (in_none (map range_of t.now)) a.0 (suc last.0 - a.0) }
{
    let mut room = [Range::NONE; SLOTS];
    let ranges = order::ranges(t, None, &mut room);
    Walk { ranges, last }.run(a)
}

// From its first block on, the partition of slot k, counted from 1, has room for that size, its own range left out.
pub fn fits_at(t: &Table, k: usize, last: Block, size: u64) -> bool
    requires { (1 ≤ k) × (k ≤ slot_count) × (0 < size) × (last.0 < 18446744073709551615) }
    ensures { result ≡ fits_in last.0 t.now k size }
{
    let i = k - 1;
    let mut room = [Range::NONE; SLOTS];
    let ranges = order::ranges(t, Some(i), &mut room);
    size <= Walk { ranges, last }.run(Range::from_entry(&t[i]).first)
}
