#![tactic(auto)]

// CRC-32 over tables that the caller lends, so that a call that makes several CRCs binds the tables once. Eight bytes a step; a long input goes by
// four lanes side by side, each of which takes every fourth word of eight bytes.
// An inner crate: no user calls it, so its functions may have a `requires`, which each caller meets.
ghost use Rattle.std.specs.Prelude.{◌≡◌, ◌+◌, ◌*◌, ◌^◌, ◌≤◌, length, drop};
ghost use Rattle.std.specs.Int.Bits.{bit_xor};
ghost use Rattle.octets.specs.Bytes.{field};
ghost use Rattle.crc_lanes.specs.Crc.{bit_steps, crc_byte, crc_update, crc32 as crc_of};
ghost use Rattle.crc_lanes.specs.Tables.{sum_of, Near, Far};

use octets::Stored;

// From this length on the four lanes are faster than one word after the other.
const LANES_FROM: usize = 128;

// The sum (xor) of the entries for the DIGITS low digits of x, each of BITS bits and so below RADIX; the lowest digit's table is the last. The highest
// digits come first: they need not wait for the state, which is in the low ones.
fn sum_of<const DIGITS: usize, const BITS: usize, const RADIX: usize>(t: &[u32], x: u64) -> u32
    requires tables { DIGITS * RADIX ≤ length t.now }
    requires digit { (1 ≤ BITS) × (RADIX ≡ 2 ^ BITS) }
    requires word { BITS * DIGITS ≤ 64 }
    ensures { result ≡ sum_of RADIX t.now DIGITS x }
{
    let mut sum = 0;
    for j in 0..DIGITS {
        let digit = (x >> (BITS * (DIGITS - 1 - j))) % RADIX as u64;
        sum ^= t[j * RADIX + digit as usize];
    }
    sum
}

// A word is added to the state and leaves: eight bytes on.
fn near_step(t: &[u32; 256], c: u32, word: u64) -> u32
    requires { Near t.now }
    ensures { result ≡ bit_steps 64 (bit_xor c word) }
{
    sum_of::<16, 4, 16>(t, c as u64 ^ word)
}

// The word at i is added to the lane, which goes on to its next word: 32 bytes on. By halves: what the compiler makes of the whole word takes 15%
// longer.
fn far_step(t: &[u32; 2048], c: u32, block: &[u8; 32], i: usize) -> u32
    requires { Far t.now × (i + 8 ≤ 32) }
    ensures { result ≡ bit_steps 256 (bit_xor c (field i 8 block.now)) }
{
    let low: u32 = octets::load(block, i);
    let high: u32 = octets::load(block, i + 4);
    sum_of::<4, 8, 256>(&t[1024..], (c ^ low) as u64) ^ sum_of::<4, 8, 256>(&t[..], high as u64)
}

fn byte_step(t: &[u32; 256], c: u32, b: u8) -> u32
    requires { Near t.now }
    ensures { result ≡ crc_byte c b }
{
    sum_of::<2, 4, 16>(t, (c as u64 ^ b as u64) & 0xff) ^ (c >> 8)
}

// One byte a step.
fn update_bytes(near: &[u32; 256], state: u32, s: &[u8]) -> u32
    requires { Near near.now }
    ensures { result ≡ crc_update state s.now }
{
    s.iter().fold(state, |c, b| byte_step(near, c, *b))
}

// For short inputs, by the near tables alone: eight bytes a step while there are eight.
pub fn update_short(near: &[u32; 256], state: u32, s: &[u8]) -> u32
    requires { Near near.now }
    ensures { result ≡ crc_update state s.now }
{
    let (words, rest) = s.as_chunks::<8>();
    let c = words
        .iter()
        .fold(state, |c, word| near_step(near, c, u64::from_bytes(word)));
    update_bytes(near, c, rest)
}

// The lanes are c0 to c3; each is still to be added to its next word, of the block that comes. At the last block they join, one word after the other.
fn update_long(near: &[u32; 256], far: &[u32; 2048], state: u32, s: &[u8]) -> u32
    requires { Near near.now × Far far.now × (32 ≤ length s.now) }
    ensures { result ≡ crc_update state s.now }
{
    let (blocks, rest) = s.as_chunks::<32>();
    let before = blocks.len() - 1;
    let mut c0 = state;
    let mut c1: u32 = 0;
    let mut c2: u32 = 0;
    let mut c3: u32 = 0;
    for block in &blocks[..before] {
        c0 = far_step(far, c0, block, 0);
        c1 = far_step(far, c1, block, 8);
        c2 = far_step(far, c2, block, 16);
        c3 = far_step(far, c3, block, 24);
    }
    let last = &blocks[before];
    let a0 = near_step(near, c0, octets::load(last, 0));
    let a1 = near_step(near, a0 ^ c1, octets::load(last, 8));
    let a2 = near_step(near, a1 ^ c2, octets::load(last, 16));
    let a3 = near_step(near, a2 ^ c3, octets::load(last, 24));
    update_short(near, a3, rest)
}

pub fn update(near: &[u32; 256], far: &[u32; 2048], state: u32, s: &[u8]) -> u32
    requires { Near near.now × Far far.now }
    ensures { result ≡ crc_update state s.now }
{
    if s.len() < LANES_FROM {
        return update_short(near, state, s);
    }
    update_long(near, far, state, s)
}

pub fn crc32(near: &[u32; 256], far: &[u32; 2048], s: &[u8]) -> u32
    requires { Near near.now × Far far.now }
    ensures { result ≡ crc_of s.now }
{
    update(near, far, 0xffff_ffff, s) ^ 0xffff_ffff
}
