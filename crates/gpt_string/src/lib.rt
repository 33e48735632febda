#![tactic(auto)]

// Layout strings of the boot loader become a disk: the text is judged as a whole first, then each partition is placed on one table, and head and tail are
// written once, at the end. The contract of `build` is one equation with `build_by` of gpt_string_model for its answer and both buffers afterwards.
ghost use Rattle.std.specs.Prelude.{◌≡◌, true, ◌≤◌, length};
ghost use Rattle.std.proofs.Math.Option.{none};
ghost use Rattle.octets.specs.Rows.{refusal};
ghost use Rattle.gpt_model.specs.Table.{table_bytes};
ghost use Rattle.gpt_model.specs.Disk.{most_blocks};
ghost use Rattle.gpt_model.specs.Calls.{outcome, lent_rows};
ghost use Rattle.gpt_places.specs.Invariants.{Legal};
ghost use Rattle.gpt_string_model.specs.Text.{is_layout, wanted_in};
ghost use Rattle.gpt_string_model.specs.Build.{build as build_table};
ghost use Rattle.gpt_string_model.specs.Calls.{build_string, build_by};
ghost use Rattle.gpt_build.specs.Answers.{built_by};
ghost use Rattle.gpt_string.specs.Answers.{build_answer};

use gpt_build::{Refusal, Request};
use gpt_checks::Refusal as DiskRefusal;
use gpt_model::Shape;
use gpt_places::{Disk, TABLE};
use gpt_string_values::cut;

// The partitions of the text on the table, one after the other, up to the first that is refused. No `split`: each must know whether another follows.
// Not inlined: what it needs of the stack is free again where the CRCs are computed.
#[inline(never)]
fn fill(table: &mut [u8; TABLE], disk: Disk, alignment: u64, text: &[u8]) -> Result<(), Refusal>
    requires { (disk.n ≤ most_blocks) × (is_layout text.now ≡ true) }
    ensures { built_by result table.new ≡ build_table disk.shape disk.n alignment table.old (wanted_in text.now) }
{
    let (_, partitions) = cut(text, b';');
    let mut rest = partitions;
    while !rest.is_empty() {
        let (part, behind) = cut(rest, b';');
        let wanted = gpt_string_text::partition(part).unwrap();
        let last = behind.is_empty();
        let request = Request {
            disk,
            alignment,
            wanted,
            last,
        };
        request.add(table)?;
        rest = behind;
    }
    Ok(())
}

// Head and tail with the table that the text makes, where the rows of lengths and N do not hold.
fn write(
    head: &mut [u8],
    tail: &mut [u8],
    disk: Disk,
    alignment: u64,
    text: &[u8],
) -> Result<(), Refusal>
    requires { refusal (lent_rows disk.shape disk.n head.old tail.old true) ≡ none }
    ensures { outcome (build_answer result) head.new tail.new
        ≡ build_string disk.shape disk.n alignment text.now head.old tail.old }
{
    let guid = gpt_string_text::disk_of(text).ok_or(Refusal::StringForm)?;
    if octets::is_zero(&guid) {
        return Err(Refusal::Disk(DiskRefusal::NoDiskGuid));
    }
    let mut table = [0; TABLE];
    fill(&mut table, disk, alignment, text)?;
    let crc = crc32::crc32(&table);
    gpt_copies::writing::built_both(head, tail, disk, &guid, &table, crc);
    Ok(())
}

// On a disk of a shape.
fn build_on(
    head: &mut [u8],
    tail: &mut [u8],
    n: u64,
    shape: Shape,
    alignment: u64,
    text: &[u8],
) -> Result<(), Refusal>
    requires { Legal shape }
    ensures { outcome (build_answer result) head.new tail.new
        ≡ build_string shape n alignment text.now head.old tail.old }
{
    let disk = gpt_checks::lent(&head[..], &tail[..], n, shape)?;
    write(head, tail, disk, alignment, text)
}

// Makes head and tail of the layout string `text`. Without a start, a partition begins at the lowest multiple of the alignment with room enough.
pub fn build(
    head: &mut [u8],
    tail: &mut [u8],
    n: u64,
    block: u64,
    alignment: u64,
    text: &[u8],
) -> Result<(), Refusal>
    ensures { outcome (build_answer result) head.new tail.new
        ≡ build_by block n alignment text.now head.old tail.old }
{
    let shape = gpt_places::shape_of(block).ok_or(DiskRefusal::BlockSize)?;
    build_on(head, tail, n, shape, alignment, text)
}
