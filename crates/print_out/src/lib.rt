// Bytes, and numbers in upper-case hex or decimal, printed by a handle, for the samples programs.
// An inner crate: no user calls it.
#![tactic(auto)]

use std::io;

pub fn bytes(rt: &impl Print, s: &[u8]) -> io::Result<()> {
    rt.write_all(s)
}

pub fn hex32(rt: &impl Print, x: u32) -> io::Result<()> {
    print!(rt; "{x:08X}")
}

pub fn hex(rt: &impl Print, s: &[u8]) -> io::Result<()> {
    for b in s {
        print!(rt; "{b:02X}")?;
    }
    Ok(())
}

pub fn decimal(rt: &impl Print, x: u64) -> io::Result<()> {
    print!(rt; "{x}")
}
