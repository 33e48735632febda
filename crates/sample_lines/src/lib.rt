// The lines of the disk samples, as the program `samples` describes them.
// An inner crate: no user calls it.
#![tactic(auto)]

ghost use Rattle.std.specs.Prelude.{◌≡◌, length};

use gpt_calls::Added;
use gpt_checks::Refusal;
use gpt_copies::State;
use gpt_room::Free;
use std::io;

// The samples are on disks of 512-byte blocks.
pub const BLOCK: u64 = 512;

fn refused(rt: &impl Print, r: Refusal) -> io::Result<()> {
    println!(rt; " refused {}", gpt::number(r))
}

pub fn done(rt: &impl Print, answer: Result<(), Refusal>) -> io::Result<()> {
    match answer {
        Ok(()) => println!(rt),
        Err(r) => refused(rt, r),
    }
}

pub fn added(rt: &impl Print, answer: Result<Added, Refusal>) -> io::Result<()> {
    match answer {
        Ok(new) => println!(rt; " slot {} first {}", new.slot, new.first.0),
        Err(r) => refused(rt, r),
    }
}

fn state(rt: &impl Print, answer: Result<State, Refusal>) -> io::Result<()> {
    match answer {
        Ok(found) => println!(rt; " {}", found as u64),
        Err(r) => refused(rt, r),
    }
}

fn free(rt: &impl Print, answer: Result<Free, Refusal>) -> io::Result<()> {
    match answer {
        Ok(counts) => println!(rt; " {} longest {}", counts.blocks, counts.longest),
        Err(r) => refused(rt, r),
    }
}

// State, free counts, what was granted and given back since formatting, and bytes.
pub fn close(
    rt: &impl Print,
    head: &[u8],
    tail: &[u8],
    n: u64,
    granted: u64,
    back: u64,
) -> io::Result<()> {
    print!(rt; "disk {n} state")?;
    state(rt, gpt::read(head, tail, n, BLOCK))?;
    print!(rt; "disk {n} free")?;
    free(rt, gpt::free_counts(head, tail, n, BLOCK))?;
    println!(rt; "disk {n} granted {granted} back {back}")?;
    println!(rt;
        "disk {n} crc32 {:08X} {:08X}",
        crc32::crc32(head),
        crc32::crc32(tail)
    )
}

// Of a header's bytes: its own block and the other header's, the usable blocks, where the entries begin.
fn header(rt: &impl Print, h: &[u8], n: u64) -> io::Result<()>
    requires { length h.now ≡ 92 }
{
    let own: u64 = octets::load(h, 24);
    let other: u64 = octets::load(h, 32);
    let first: u64 = octets::load(h, 40);
    let last: u64 = octets::load(h, 48);
    let entries: u64 = octets::load(h, 72);
    println!(rt; "disk {n} header {own} other {other} usable {first} {last} entries {entries}")
}

pub fn headers(rt: &impl Print, head: &[u8], tail: &[u8], n: u64) -> io::Result<()>
    requires { (length head.now ≡ 17408) × (length tail.now ≡ 16896) }
{
    header(rt, &head[512..604], n)?;
    header(rt, &tail[16384..16476], n)
}
