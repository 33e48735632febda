#![tactic(auto)]

// Bytes, numerals and names of texts, for readers of several languages.
// An inner crate: no user calls it, so its functions may have a `requires`, which each caller meets.
ghost use Rattle.std.specs.Prelude.{◌≡◌};
ghost use Rattle.text_words.specs.Classes.{is_blank, is_graphic, is_digit, digit_in};
ghost use Rattle.text_words.specs.Names.{is_sized};

pub mod digits; // digits.rt: the number that a word begins with

pub fn is_blank(b: u8) -> bool
    ensures { result ≡ is_blank b }
{
    // An arm for each: in one arm they are compared one after the other, which takes half as long again.
    match b {
        b' ' => true,
        b'\t' => true,
        b'\r' => true,
        b'\n' => true,
        _ => false,
    }
}

pub fn is_graphic(b: u8) -> bool
    ensures { result ≡ is_graphic b }
{
    b.is_ascii_graphic()
}

pub fn is_digit(b: u8) -> bool
    ensures { result ≡ is_digit b }
{
    b.is_ascii_digit()
}

// The value of a digit of the base, hex digits of either case.
pub fn digit(b: u8, base: u64) -> Option<u64>
    ensures { result ≡ digit_in base b }
{
    let value = match b {
        b'0'..=b'9' => b - b'0',
        b'A'..=b'F' => b - b'A' + 10,
        b'a'..=b'f' => b - b'a' + 10,
        _ => 99, // the definition `digit_of` has this number for every other byte
    };
    let value = value as u64;
    (value < base).then_some(value)
}

// 1 to `most` bytes.
pub fn is_sized(w: &[u8], most: usize) -> bool
    ensures { result ≡ is_sized most w.now }
{
    1 <= w.len() && w.len() <= most
}
