#![tactic(auto)]

// CRC-32 with constant tables.
mod tables;

ghost use Rattle.std.specs.Prelude.{◌≡◌};
ghost use Rattle.crc_lanes.specs.Crc.{crc_update, crc32 as crc_of};

// From this length on it pays to bind the far tables.
const FAR_FROM: usize = 256;

// The state after the bytes of s. The CRC of parts one after the other: start from 0xffff_ffff, hand each answer to the next part's call, and invert
// the last answer (`^ 0xffff_ffff`).
pub fn update(state: u32, s: &[u8]) -> u32
    ensures { result ≡ crc_update state s.now }
{
    let near = tables::near();
    if s.len() < FAR_FROM {
        return crc_lanes::update_short(&near, state, s);
    }
    let far = tables::far();
    crc_lanes::update(&near, &far, state, s)
}

pub fn crc32(s: &[u8]) -> u32
    ensures { result ≡ crc_of s.now }
{
    update(0xffff_ffff, s) ^ 0xffff_ffff
}
