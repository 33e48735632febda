// Numerals.
ghost use Rattle.std.specs.Prelude.{◌≡◌, ◌≤◌, length, drop};
ghost use Rattle.text_words.specs.Numerals.{digits_from, some_digits, numeral_of};

use super::digit;

// The number that a word begins with, and the place after its last digit.
#[derive(Clone, Copy)]
pub struct Numeral {
    pub value: u64,
    pub end: usize,
}

// The number is over the limit, or none stands there.
#[derive(Clone, Copy)]
pub enum NoNumeral {
    Over,
    Missing,
}

// The digits from at on. A value over the limit stays so, whatever digits follow.
fn digits_from(w: &[u8], at: usize, base: u64, most: u64) -> Result<Numeral, NoNumeral>
    requires { (at ≤ length w.now) × (1 ≤ base) }
    ensures { result ≡ digits_from most base 0 (drop at w.now) at }
{
    let limit = most / base;
    let mut value = 0;
    let mut end = at;
    for b in &w[at..] {
        let Some(d) = digit(*b, base) else {
            break;
        };
        if limit < value || most - value * base < d {
            return Err(NoNumeral::Over);
        }
        value = value * base + d;
        end += 1;
    }
    Ok(Numeral { value, end })
}

// One digit at least, from at on.
pub fn some_digits(w: &[u8], at: usize, base: u64, most: u64) -> Result<Numeral, NoNumeral>
    requires { (at ≤ length w.now) × (1 ≤ base) }
    ensures { result ≡ some_digits most base (drop at w.now) at }
{
    match &w[at..] {
        [first, ..] if digit(*first, base).is_some() => digits_from(w, at, base, most),
        _ => Err(NoNumeral::Missing),
    }
}

// The number that the word w begins with.
pub fn numeral_of(w: &[u8], most: u64) -> Result<Numeral, NoNumeral>
    ensures { result ≡ numeral_of most w.now }
{
    match w {
        [] => Err(NoNumeral::Missing),
        [b'0', b'x', ..] => some_digits(w, 2, 16, most),
        [b'0', ..] => Ok(Numeral { value: 0, end: 1 }),
        _ => some_digits(w, 0, 10, most),
    }
}
