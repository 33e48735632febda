#![tactic(auto)]

// Text put into a lent buffer: bytes, and numbers in lower-case hex or decimal. Each function answers the place after what it put.
// An inner crate: no user calls it, so its functions may have a `requires`, which each caller meets.
ghost use Rattle.std.specs.Prelude.{◌+◌, ◌≤◌, ◌<◌, ◌^◌, length};
ghost use Rattle.text_out.specs.Text.{hex_digits, decimal_digits, Puts};

pub fn bytes(out: &mut [u8], at: usize, s: &[u8]) -> usize
    requires { at + length s.now ≤ length out.old }
    ensures { Puts at s.now result out.old out.new }
{
    octets::copy(out, at, s);
    at + s.len()
}

// Of so many digits.
pub fn hex(out: &mut [u8], at: usize, n: u64, width: usize) -> usize
    requires { (1 ≤ width) × (width ≤ 16) × (n < 16 ^ width) × (at + width ≤ length out.old) }
    ensures { Puts at (hex_digits width n) result out.old out.new }
{
    let mut text = [0u8; 16];
    let k = io::hex(n, width, &mut text);
    bytes(out, at, &text[..k])
}

// Without leading zeros; of at most three digits.
pub fn decimal(out: &mut [u8], at: usize, n: u64) -> usize
    requires { (n < 1000) × (at + 3 ≤ length out.old) }
    ensures { Puts at (decimal_digits n) result out.old out.new }
{
    let mut text = [0u8; 20];
    let k = io::decimal(n, &mut text);
    bytes(out, at, &text[..k])
}
