#![tactic(auto)]

// Samples S1 to S5 and S9 on a head and a tail, one line a call:
//
//     disk N format                           accepted; "refused" and the number instead, here and below
//     disk N state STATE
//     disk N header BLOCK other BLOCK usable FIRST LAST entries BLOCK
//     disk N add SIZE slot SLOT first BLOCK
//     disk N delete SLOT
//     disk N resize SLOT SIZE
//     disk N free COUNT longest COUNT
//     disk N granted COUNT back COUNT         sums over the calls since formatting
//     disk N crc32 HEAD TAIL                  of all bytes of head and tail
mod calls;
mod ledger;

ghost use Rattle.std.specs.Prelude.{◌≡◌, length};

use ledger::{SlotSize, Sums};
use std::io;

const HEAD: usize = 17408;

const TAIL: usize = 16896;

// A step is a letter, a digit K and a size SS in two digits:
//
//     h000    the headers
//     c000    state, free counts, sums and CRCs
//     f000    format
//     dK00    delete slot K
//     rKSS    resize slot K to SS blocks
//     aKSS    the K-th add, of SS blocks
//     mK00    the K-th add, of 2^64 − 1 blocks
//     wK00    the K-th add, of all usable blocks
fn step(
    rt: &impl Print,
    head: &mut [u8; HEAD],
    tail: &mut [u8; TAIL],
    n: u64,
    sums: &mut Sums,
    step: &[u8; 5],
) -> io::Result<()> {
    let [letter, k, tens, ones, _] = *step;
    let k = digit(k);
    let size = 10 * digit(tens) as u64 + digit(ones) as u64;
    let change = match letter {
        b'h' => sample_lines::headers(rt, head, tail, n).map(|()| None)?,
        b'c' => sample_lines::close(rt, head, tail, n, sums.granted, sums.back).map(|()| None)?,
        b'f' => calls::format(rt, head, tail, n).map(|()| None)?,
        b'd' => calls::delete(rt, head, tail, n, k as u64)?,
        b'r' => calls::resize(rt, head, tail, n, k as u64, size)?,
        b'a' => calls::add(rt, head, tail, n, k, size)?,
        b'm' => calls::add(rt, head, tail, n, k, u64::MAX)?,
        b'w' => calls::add(rt, head, tail, n, k, n.wrapping_sub(67))?,
        _ => None,
    };
    if let Some(new) = change {
        sums.book(new);
    }
    Ok(())
}

fn digit(letter: u8) -> u8 {
    letter % 16
}

// The steps, each with a blank behind it, on a disk of n blocks.
fn steps(rt: &impl Print, n: u64, script: &[u8]) -> io::Result<()> {
    let mut head = [0u8; HEAD];
    let mut tail = [0u8; TAIL];
    let mut sums = Sums::default();
    let (all, _) = script.as_chunks::<5>();
    for s in all {
        step(rt, &mut head, &mut tail, n, &mut sums, s)?;
    }
    Ok(())
}

// S1; S2; S3 to S5; S9, and that the whole disk can be taken afterwards.
fn main(rt: HostRuntime) -> io::Result<()> {
    steps(&rt, 67, b"f000 ")?;
    steps(&rt, 68, b"f000 h000 a101 a201 c000 ")?;
    steps(
        &rt,
        100,
        b"f000 h000 a110 a205 d100 a311 a410 c000 r119 r118 c000 ",
    )?;
    steps(&rt, 100, b"f000 m100 w200 c000 ")?;
    steps(&rt, 4294967296, b"f000 m100 w200 c000 ")
}
