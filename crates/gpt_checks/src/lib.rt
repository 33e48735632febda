#![tactic(auto, using(crate::proofs::Rows::one_row))]

// The judges of the disk calls: each goes through the call's rows of refusals in the rules' order, to the first that holds. They write nothing.
// An inner crate: no user calls it, so its functions may have a `requires`, which each caller meets.
ghost use Rattle.std.specs.Prelude.{◌≡◌, true, not, [], ◌∷◌, leb, IfOk};
ghost use Rattle.std.proofs.Math.Option.{some};
ghost use Rattle.octets.specs.Tests.{◌and◌, ◌or◌, any};
ghost use Rattle.octets.specs.Bytes.{is_zero};
ghost use Rattle.octets.specs.Rows.{row, refusal};
ghost use Rattle.gpt_model.specs.Table.{slot_count, unique_of, unused, entries};
ghost use Rattle.gpt_model.specs.Ranges.{is_alignment};
ghost use Rattle.gpt_model.specs.Disk.{last_usable, in_range, table_of};
ghost use Rattle.gpt_model.specs.Calls.{lengths_ok, lent_rows, open_rows, format_rows, carries, name_taken, slot_rows, add_rows, start_for, table_rows};
ghost use Rattle.gpt_model.specs.Calls.{rows_of, edit};
ghost use Rattle.gpt_model.specs.Calls.{add as add_call, delete as delete_call, resize as resize_call, rename as rename_call};
ghost use Rattle.gpt_table.specs.Invariants.{without};
ghost use Rattle.gpt_places.specs.Invariants.{Legal};
ghost use Rattle.gpt_checks.specs.Checks.{stop_of, IsDisk};
ghost use Rattle.gpt_checks.specs.Refusals.{number_of};

use gpt_copies::State;
use gpt_entry::NAME_AT;
use gpt_model::{Block, NewPartition, Shape};
use gpt_places::{Disk, SLOTS, Side, TABLE};
use gpt_table::UNIQUE_AT;

// Why a call is refused; specs/Refusals gives each its number.
#[derive(Clone, Copy)]
pub enum Refusal {
    BlockSize,
    WrongLength,
    BlockCount,
    NoDiskGuid,
    NeitherGood,
    NotTheSame,
    NoSuchSlot,
    SlotUnused,
    NoSize,
    Alignment,
    NoType,
    NoUniqueGuid,
    BadName,
    NameTaken,
    AttributeBits,
    NoUnusedSlot,
    NoRoom,
}

// What an add that no row refuses goes by: the disk, and the first block of the new partition.
#[derive(Clone, Copy)]
pub struct Start {
    pub disk: Disk,
    pub first: Block,
}

// Q2: N, its block count, is 68 to 4,294,967,296.
const MOST_BLOCKS: u64 = 4294967296;

// One row: its refusal where it holds.
fn refuse_if(holds: bool, r: Refusal) -> Result<(), Refusal>
    ensures { stop_of result ≡ refusal (row holds (number_of r) ∷ []) }
{
    if holds { Err(r) } else { Ok(()) }
}

// Head and tail have the lengths of the shape.
pub fn lengths_ok(head: &[u8], tail: &[u8], shape: Shape) -> bool
    requires { Legal shape }
    ensures { result ≡ lengths_ok shape head.now tail.now }
{
    head.len() == gpt_places::lent_bytes(Side::Primary, shape)
        && tail.len() == gpt_places::lent_bytes(Side::Backup, shape)
}

fn in_range(n: u64, shape: Shape) -> bool
    requires { Legal shape }
    ensures { result ≡ in_range shape n }
{
    2 * shape.first <= n && n <= MOST_BLOCKS
}

// 1, 2. Head, tail, N and shape stand apart up to here: a `Disk` is one that these rows have passed (rows 1 and 2 take any buffers and any N).
pub fn lent(head: &[u8], tail: &[u8], n: u64, shape: Shape) -> Result<Disk, Refusal>
    requires { Legal shape }
    ensures refused { stop_of result ≡ refusal (lent_rows shape n head.now tail.now true) }
    ensures disk { IfOk result (IsDisk shape n) }
{
    refuse_if(!lengths_ok(head, tail, shape), Refusal::WrongLength)?;
    refuse_if(!in_range(n, shape), Refusal::BlockCount)?;
    Ok(Disk { shape, n })
}

// R25: format 1, 2, 3.
pub fn format(
    head: &[u8],
    tail: &[u8],
    n: u64,
    shape: Shape,
    guid: &[u8; 16],
) -> Result<Disk, Refusal>
    requires { Legal shape }
    ensures refused { stop_of result ≡ refusal (format_rows shape n guid.now head.now tail.now) }
    ensures disk { IfOk result (IsDisk shape n) }
{
    let disk = lent(head, tail, n, shape)?;
    refuse_if(octets::is_zero(guid), Refusal::NoDiskGuid)?;
    Ok(disk)
}

// 1, 2, 10, 11: the copies are both good and the same.
fn opened(head: &[u8], tail: &[u8], n: u64, shape: Shape) -> Result<Disk, Refusal>
    requires { Legal shape }
    ensures refused { stop_of result ≡ refusal (open_rows shape n head.now tail.now true) }
    ensures disk { IfOk result (IsDisk shape n) }
{
    let disk = lent(head, tail, n, shape)?;
    let state = gpt_copies::reading::state(head, tail, disk).ok_or(Refusal::NeitherGood)?;
    refuse_if(state != State::Both, Refusal::NotTheSame)?;
    Ok(disk)
}

// The number of a slot is one of 1 to 128.
fn is_slot(number: u64) -> bool
    ensures { result ≡ (leb 1 number and leb number slot_count) }
{
    1 <= number && number <= SLOTS as u64
}

// 12, 13: there is a slot of that number, and it is used.
fn slot(table: &[u8; TABLE], number: u64) -> Result<(), Refusal>
    ensures { stop_of result ≡ refusal (slot_rows table.now number) }
{
    refuse_if(!is_slot(number), Refusal::NoSuchSlot)?;
    refuse_if(
        gpt_table::is_unused(&gpt_table::as_table(table)[(number - 1) as usize]),
        Refusal::SlotUnused,
    )
}

// R28: Delete: 1, 2, 10, 11, 12, 13.
pub fn delete(head: &[u8], tail: &[u8], n: u64, shape: Shape, number: u64) -> Result<Disk, Refusal>
    requires { Legal shape }
    ensures refused { stop_of result ≡ refusal (rows_of shape n head.now tail.now (edit (delete_call number))) }
    ensures disk { IfOk result (IsDisk shape n) }
{
    let disk = opened(head, tail, n, shape)?;
    slot(gpt_places::table_in(head, Side::Primary, shape), number)?;
    Ok(disk)
}

// 26: the name is not empty, and some used entry but the one left out has its 72 bytes.
fn name_taken(table: &[u8; TABLE], but: Option<usize>, name: &[u16; 36]) -> bool
    ensures { result ≡ name_taken (without but (entries table.now)) name.now }
{
    let bytes = gpt_entry::name_bytes(name);
    !octets::is_zero(&bytes) && gpt_table::carried(gpt_table::as_table(table), but, NAME_AT, &bytes)
}

// R29: Rename the same, then 23. a4: 26, after 23 and before 24 (in rename, last).
pub fn rename(
    head: &[u8],
    tail: &[u8],
    n: u64,
    shape: Shape,
    number: u64,
    name: &[u16; 36],
) -> Result<Disk, Refusal>
    requires { Legal shape }
    ensures refused { stop_of result ≡ refusal (rows_of shape n head.now tail.now (edit (rename_call number name.now))) }
    ensures disk { IfOk result (IsDisk shape n) }
{
    let disk = delete(head, tail, n, shape, number)?;
    refuse_if(gpt_table::bad_name(name), Refusal::BadName)?;
    let table = gpt_places::table_in(head, Side::Primary, shape);
    let own = (number - 1) as usize;
    refuse_if(name_taken(table, Some(own), name), Refusal::NameTaken)?;
    Ok(disk)
}

// R30: Resize as delete, then 20, 25. The room is asked before a last block is formed, so no size is too large.
pub fn resize(
    head: &[u8],
    tail: &[u8],
    n: u64,
    shape: Shape,
    number: u64,
    size: u64,
) -> Result<Disk, Refusal>
    requires { Legal shape }
    ensures refused { stop_of result ≡ refusal (rows_of shape n head.now tail.now (edit (resize_call number size))) }
    ensures disk { IfOk result (IsDisk shape n) }
{
    let disk = delete(head, tail, n, shape, number)?;
    refuse_if(size == 0, Refusal::NoSize)?;
    let table = gpt_places::table_in(head, Side::Primary, shape);
    refuse_if(
        !gpt_room::fits_at(
            gpt_table::as_table(table),
            number as usize,
            disk.last_usable(),
            size,
        ),
        Refusal::NoRoom,
    )?;
    Ok(disk)
}

// 22: the unique GUID is zero, or some used entry has it.
fn taken(table: &[u8; TABLE], unique: &[u8; 16]) -> bool
    ensures { result ≡ (is_zero unique.now or any (carries unique_of unique.now) (entries table.now)) }
{
    octets::is_zero(unique)
        || gpt_table::carried(gpt_table::as_table(table), None, UNIQUE_AT, unique)
}

// 24.
fn full(table: &[u8; TABLE]) -> bool
    ensures { result ≡ not (any unused (entries table.now)) }
{
    gpt_table::first_unused(gpt_table::as_table(table)).is_none()
}

// 27. By `matches!` the proof does not close: nothing is known of a number in the arm for the rest.
fn other_alignment(alignment: u64) -> bool
    ensures { result ≡ not (is_alignment alignment) }
{
    alignment != 1 && alignment != 8 && alignment != 2048
}

// 20, 27, 21, 22, 23, 26, 28, 24.
pub fn new(table: &[u8; TABLE], p: NewPartition) -> Result<(), Refusal>
    ensures { stop_of result ≡ refusal (add_rows table.now p) }
{
    refuse_if(p.size == 0, Refusal::NoSize)?;
    refuse_if(other_alignment(p.alignment), Refusal::Alignment)?;
    refuse_if(octets::is_zero(&p.kind), Refusal::NoType)?;
    refuse_if(taken(table, &p.unique), Refusal::NoUniqueGuid)?;
    refuse_if(gpt_table::bad_name(&p.name), Refusal::BadName)?;
    refuse_if(name_taken(table, None, &p.name), Refusal::NameTaken)?;
    refuse_if(
        gpt_attributes::offends(p.rule, p.attributes),
        Refusal::AttributeBits,
    )?;
    refuse_if(full(table), Refusal::NoUnusedSlot)
}

// The same, then 25; and where it starts.
pub fn place(table: &[u8; TABLE], disk: Disk, p: NewPartition) -> Result<Block, Refusal>
    ensures refused { stop_of result ≡ refusal (table_rows disk.shape.first (last_usable disk.shape disk.n) table.now (add_call p)) }
    ensures start { IfOk result (λ b. start_for disk.shape.first (last_usable disk.shape disk.n) table.now p ≡ some b.0) }
{
    new(table, p)?;
    let table = gpt_table::as_table(table);
    gpt_room::lowest(
        table,
        disk.first_usable(),
        disk.last_usable(),
        p.size,
        p.alignment,
    )
    .ok_or(Refusal::NoRoom)
}

// R27: Add: 1, 2, 10, 11, 20, 21, 22, 23, 24, 25. e5: 27 for any other alignment, after 20. a4: 26, after 23 and before 24.
// k6: 28 in adding, after 26 and before 24
pub fn add(
    head: &[u8],
    tail: &[u8],
    n: u64,
    shape: Shape,
    p: NewPartition,
) -> Result<Start, Refusal>
    requires { Legal shape }
    ensures refused { stop_of result ≡ refusal (rows_of shape n head.now tail.now (edit (add_call p))) }
    ensures disk { IfOk result (λ s. IsDisk shape n s.disk) }
    ensures start { IfOk result (λ s. start_for shape.first (last_usable shape n) (table_of shape n head.now tail.now) p ≡ some s.first.0) }
{
    let disk = opened(head, tail, n, shape)?;
    let table = gpt_places::table_in(head, Side::Primary, shape);
    let first = place(table, disk, p)?;
    Ok(Start { disk, first })
}
