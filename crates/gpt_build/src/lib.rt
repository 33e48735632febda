#![tactic(auto)]

// One partition of a layout string on the table that the earlier ones left: why it is refused, where it stands, and its entry.
// An inner crate: no user calls it, so its functions may have a `requires`, which each caller meets.
ghost use Rattle.std.specs.Prelude.{◌≡◌, ◌+◌, ◌≤◌, ◌<◌, length, None, Some};
ghost use Rattle.octets.specs.Bytes.{put_chunk};
ghost use Rattle.octets.specs.Rows.{refusal};
ghost use Rattle.gpt_model.specs.Table.{entry_bytes, slot_count, table_bytes};
ghost use Rattle.gpt_model.specs.Disk.{most_blocks};
ghost use Rattle.gpt_model.specs.Calls.{lowest_unused, new_entry};
ghost use Rattle.gpt_string_model.specs.Build.{uneven, reaches, needed, as_new, complete, unless_faulty};
ghost use Rattle.gpt_build.specs.declared.Refusal.TheVariants.{Disk};
ghost use Rattle.gpt_build.specs.Answers.{request_rows, table_with, built_by};
ghost use Rattle.gpt_build.specs.Invariants.{run_at, usable_run, blocks_from, part_place_by, request_place, placed_from72};

use gpt_checks::Refusal as DiskRefusal;
use gpt_model::{Block, NewPartition, Rule};
use gpt_places::{ENTRY, TABLE};
pub use request::Request;

mod request; // request.rt: a partition to be placed

// Why a layout string is refused; specs/Answers gives each its number.
#[derive(Clone, Copy)]
pub enum Refusal {
    StringForm,
    NotWholeBlocks,
    StartTaken,
    Disk(DiskRefusal),
}

impl From<DiskRefusal> for Refusal {
    ghost from_gives = { λ r result. result ≡ Disk r };

    fn from(r: DiskRefusal) -> Refusal {
        Refusal::Disk(r)
    }
}

// Where a partition stands and how many blocks it takes.
#[derive(Clone, Copy)]
struct Placed {
    first: Block,
    blocks: u64,
}

impl Request {
    fn block_size(&self) -> u64
        ensures { (result ≡ self.now.disk.shape.block) × (0 < result) }
    {
        self.disk.shape.block as u64
    }

    // 71: the start or the size is no multiple of the block size.
    fn uneven(&self) -> bool
        ensures { result ≡ uneven self.now.disk.shape self.now.wanted.size self.now.wanted.start }
    {
        let block = self.block_size();
        // 0 is a multiple
        let start = self.wanted.start.unwrap_or(0);
        start % block != 0 || self.wanted.size % block != 0
    }

    // b7: Size 0 in the last partition reaches .. to the end of that free run
    fn reaches(&self) -> bool
        ensures { result ≡ reaches self.now.wanted self.now.last }
    {
        self.last && self.wanted.size == 0
    }

    // The free blocks that it must find.
    fn needed(&self) -> u64
        ensures { result ≡ needed self.now.disk.shape self.now.wanted self.now.last }
    {
        if self.reaches() {
            1
        } else {
            self.wanted.size / self.block_size()
        }
    }

    // As adding is given it, with a size in blocks. k5: The string builder goes by the present rule.
    fn as_new(&self, size: u64) -> NewPartition
        ensures { result ≡ as_new self.now.alignment self.now.wanted size }
    {
        let kind = self.wanted.kind;
        let unique = self.wanted.unique;
        let name = self.wanted.name;
        NewPartition {
            kind,
            unique,
            size,
            alignment: self.alignment,
            attributes: self.wanted.attributes,
            rule: Rule::Present,
            name,
        }
    }

    // The free blocks from a block on, up to the last usable one.
    fn run_at(&self, table: &[u8; TABLE], b: Block) -> u64
        ensures { result ≡ run_at self.now.disk.shape self.now.disk.n table.now b.0 }
    {
        gpt_room::run_at(gpt_table::as_table(table), b, self.disk.last_usable())
    }

    // The same; none where the block is taken or not usable: a count, as the definition `usable_run` has it, and no Option.
    fn usable_run(&self, table: &[u8; TABLE], b: Block) -> u64
        ensures { result ≡ usable_run self.now.disk.shape self.now.disk.n table.now b.0 }
    {
        if b.0 < self.disk.shape.first {
            0
        } else {
            self.run_at(table, b)
        }
    }

    // Its size in blocks from block b on.
    fn blocks_from(&self, table: &[u8; TABLE], b: Block) -> u64
        ensures { result ≡ blocks_from self.now.disk.shape self.now.disk.n table.now self.now.wanted self.now.last b.0 }
    {
        if self.reaches() {
            self.run_at(table, b)
        } else {
            self.wanted.size / self.block_size()
        }
    }

    // b8: with it, the partition stands exactly there. 72, those of adding, 25.
    fn place_given(&self, table: &[u8; TABLE], at: u64) -> Result<Placed, Refusal>
        ensures { part_place_by result ≡ placed_from72 self.now table.now (Some at) }
    {
        let first = Block(at / self.block_size());
        let run = self.usable_run(table, first);
        if run == 0 {
            return Err(Refusal::StartTaken);
        }
        let size = self.needed();
        gpt_checks::new(table, self.as_new(size))?;
        if run < size {
            return Err(Refusal::Disk(DiskRefusal::NoRoom));
        }
        let blocks = self.blocks_from(table, first);
        Ok(Placed { first, blocks })
    }

    // b8: Without start, placing is as in adding
    fn place_lowest(&self, table: &[u8; TABLE]) -> Result<Placed, Refusal>
        ensures { part_place_by result ≡ placed_from72 self.now table.now None }
    {
        let size = self.needed();
        let first = gpt_checks::place(table, self.disk, self.as_new(size))?;
        let blocks = self.blocks_from(table, first);
        Ok(Placed { first, blocks })
    }

    // b10: 71 .., 72 .., then those of adding from 20 on
    fn place(&self, table: &[u8; TABLE]) -> Result<Placed, Refusal>
        ensures { part_place_by result ≡ request_place self.now table.now }
    {
        if self.uneven() {
            return Err(Refusal::NotWholeBlocks);
        }
        match self.wanted.start {
            Some(at) => self.place_given(table, at),
            None => self.place_lowest(table),
        }
    }

    // One partition more, or the first row that holds.
    pub fn add(&self, table: &mut [u8; TABLE]) -> Result<(), Refusal>
        ensures { built_by result table.new
            ≡ unless_faulty (refusal (request_rows self.now table.old)) (complete (table_with self.now table.old)) }
    {
        let place = self.place(table)?;
        put_entry(table, self.as_new(place.blocks), place.first);
        Ok(())
    }
}

// The entry of a partition in the lowest unused slot.
fn put_entry(table: &mut [u8; TABLE], p: NewPartition, first: Block)
    requires { (lowest_unused table.old < slot_count) × (0 < p.size) × (first.0 + p.size < 18446744073709551616) }
    ensures { table.new ≡ put_chunk entry_bytes (lowest_unused table.old) (new_entry p first.0) table.old }
{
    let i = gpt_table::first_unused(gpt_table::as_table(&table[..])).unwrap();
    let e = gpt_entry::added(p, first);
    octets::copy(table, i * ENTRY, &e);
}
