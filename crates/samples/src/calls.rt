// The disk calls of the samples: each prints its line and tells what it changed.
use crate::ledger::SlotSize;
use gpt_checks::Refusal;
use gpt_model::{NewPartition, Rule};
use sample_lines::BLOCK;
use std::io;

pub fn format(rt: &impl Print, head: &mut [u8], tail: &mut [u8], n: u64) -> io::Result<()> {
    print!(rt; "disk {n} format")?;
    let guid = *b"\x00\x01\x02\x03\x04\x05\x06\x07\x08\x09\x0a\x0b\x0c\x0d\x0e\x0f";
    sample_lines::done(rt, gpt::format(head, tail, n, BLOCK, guid))
}

// Type linux (G4), as stored.
fn linux() -> [u8; 16] {
    *b"\xaf\x3d\xc6\x0f\x83\x84\x72\x47\x8e\x79\x3d\x69\xd8\x47\x7d\xe4"
}

// A name of one letter.
fn name(letter: u16) -> [u16; 36] {
    let mut units = [0u16; 36];
    units[0] = letter;
    units
}

// The k-th add: each has another unique GUID and another name.
pub fn add(
    rt: &impl Print,
    head: &mut [u8],
    tail: &mut [u8],
    n: u64,
    k: u8,
    size: u64,
) -> io::Result<Option<SlotSize>> {
    print!(rt; "disk {n} add {size}")?;
    let p = NewPartition {
        kind: linux(),
        unique: [k; 16],
        size,
        alignment: 1,
        attributes: 0,
        rule: Rule::Present,
        name: name(64 + k as u16),
    };
    let answer = gpt::add(head, tail, n, BLOCK, p);
    sample_lines::added(rt, answer)?;
    Ok(
        answer.ok().map(|new| SlotSize {
            slot: new.slot,
            size,
        }),
    )
}

// After an accepted call the slot has this size.
fn done(
    rt: &impl Print,
    answer: Result<(), Refusal>,
    slot: u64,
    size: u64,
) -> io::Result<Option<SlotSize>> {
    sample_lines::done(rt, answer)?;
    Ok(answer.is_ok().then_some(SlotSize { slot, size }))
}

pub fn delete(
    rt: &impl Print,
    head: &mut [u8],
    tail: &mut [u8],
    n: u64,
    slot: u64,
) -> io::Result<Option<SlotSize>> {
    print!(rt; "disk {n} delete {slot}")?;
    done(rt, gpt::delete(head, tail, n, BLOCK, slot), slot, 0)
}

pub fn resize(
    rt: &impl Print,
    head: &mut [u8],
    tail: &mut [u8],
    n: u64,
    slot: u64,
    size: u64,
) -> io::Result<Option<SlotSize>> {
    print!(rt; "disk {n} resize {slot} {size}")?;
    done(
        rt,
        gpt::resize(head, tail, n, BLOCK, slot, size),
        slot,
        size,
    )
}
