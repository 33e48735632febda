#![tactic(auto)]

// GUID text: reading it into 16 stored bytes, writing it, and the short names of types.
ghost use Rattle.std.specs.Prelude.{◌≡◌, true, ◌<◌, List, ℕ, length};
ghost use Rattle.std.specs.Option.{option_map};
ghost use Rattle.std.specs.List.{find};
ghost use Rattle.octets.specs.Bytes.{same};
ghost use Rattle.std.specs.Bool.{then_some};
ghost use Rattle.octets.specs.Tests.{all};
ghost use Rattle.guid.specs.Hex.{hex_value, is_hex_digit, bytes_of, hex_digit_of, digits_of};
ghost use Rattle.guid.specs.Text.{digits_in, is_guid_text, grouped as grouped_of, reordered as reordered_of, stored_of, text_of};
ghost use Rattle.guid.specs.Types.{short_names, is_named, expand};
ghost use Rattle.guid.specs.Table.{table_agrees};
ghost use Rattle.guid.specs.Calls.{number_of, read_of, read_type_of, write_of};

// Why a call refuses; what it was lent stays as it was.
#[derive(Clone, Copy, Debug, PartialEq, Eq)]
pub enum Refusal {
    WrongLength,
    NotGuidText,
}

// A short name, and the stored bytes of the type that it stands for.
#[derive(Clone, Copy)]
struct ShortType {
    name: &'static [u8],
    guid: [u8; 16],
}

const SHORT_TYPES: [ShortType; 5] = [
    ShortType {
        name: b"system",
        guid: *b"\x28\x73\x2A\xC1\x1F\xF8\xD2\x11\xBA\x4B\x00\xA0\xC9\x3E\xC9\x3B",
    },
    ShortType {
        name: b"msft",
        guid: *b"\x16\xE3\xC9\xE3\x5C\x0B\xB8\x4D\x81\x7D\xF9\x2D\xF0\x02\x15\xAE",
    },
    ShortType {
        name: b"data",
        guid: *b"\xA2\xA0\xD0\xEB\xE5\xB9\x33\x44\x87\xC0\x68\xB6\xB7\x26\x99\xC7",
    },
    ShortType {
        name: b"linux",
        guid: *b"\xAF\x3D\xC6\x0F\x83\x84\x72\x47\x8E\x79\x3D\x69\xD8\x47\x7D\xE4",
    },
    ShortType {
        name: b"swap",
        guid: *b"\x6D\xFD\x57\x06\xAB\xA4\xC4\x43\x84\xE5\x09\x33\xC8\x4B\x4F\x4F",
    },
];

// The value of a hex digit of either case.
fn value(b: u8) -> Option<u8>
    ensures { result ≡ then_some (is_hex_digit b) (hex_value b) }
{
    match b {
        b'0'..=b'9' => Some(b - b'0'),
        b'A'..=b'F' => Some(b - b'A' + 10),
        b'a'..=b'f' => Some(b - b'a' + 10),
        _ => None,
    }
}

// The upper-case hex digit of a value.
fn digit(n: u8) -> u8
    requires { n < 16 }
    ensures { result ≡ hex_digit_of n }
{
    if n < 10 { b'0' + n } else { b'A' + (n - 10) }
}

// The digits of a text, without what stands between its groups.
fn digits_in(text: &[u8; 36]) -> [u8; 32]
    ensures { result ≡ digits_in text.now }
{
    let mut digits = [0u8; 32];
    octets::copy(&mut digits, 0, &text[0..8]);
    octets::copy(&mut digits, 8, &text[9..13]);
    octets::copy(&mut digits, 12, &text[14..18]);
    octets::copy(&mut digits, 16, &text[19..23]);
    octets::copy(&mut digits, 20, &text[24..36]);
    digits
}

// The bytes that 32 digits stand for.
fn bytes_of(digits: &[u8; 32]) -> Option<[u8; 16]>
    ensures { result ≡ then_some (all is_hex_digit digits.now) (bytes_of digits.now) }
{
    let mut bytes = [0u8; 16];
    for i in 0..16 {
        let high = value(digits[2 * i])?;
        let low = value(digits[2 * i + 1])?;
        bytes[i] = 16 * high + low;
    }
    Some(bytes)
}

// The digits of 16 bytes.
fn digits_of(bytes: &[u8; 16]) -> [u8; 32]
    ensures { result ≡ digits_of bytes.now }
{
    let mut digits = [0u8; 32];
    for i in 0..16 {
        digits[2 * i] = digit(bytes[i] / 16);
        digits[2 * i + 1] = digit(bytes[i] % 16);
    }
    digits
}

// Bytes in the text's order as they are stored, and back.
fn reordered(b: &[u8; 16]) -> [u8; 16]
    ensures { result ≡ reordered_of b.now }
{
    [
        b[3], b[2], b[1], b[0], b[5], b[4], b[7], b[6], b[8], b[9], b[10], b[11], b[12], b[13],
        b[14], b[15],
    ]
}

// 32 digits as a text; the dashes are those that no group is copied over.
fn grouped(digits: &[u8; 32]) -> [u8; 36]
    ensures { result ≡ grouped_of digits.now }
{
    let mut text = [b'-'; 36];
    octets::copy(&mut text, 0, &digits[0..8]);
    octets::copy(&mut text, 9, &digits[8..12]);
    octets::copy(&mut text, 14, &digits[12..16]);
    octets::copy(&mut text, 19, &digits[16..20]);
    octets::copy(&mut text, 24, &digits[20..32]);
    text
}

// The bytes that a GUID text is stored as.
fn stored_of(text: &[u8]) -> Option<[u8; 16]>
    ensures { result ≡ then_some (is_guid_text text.now) (stored_of text.now) }
{
    let text = text.as_array()?;
    if [text[8], text[13], text[18], text[23]] != *b"----" {
        return None;
    }
    let bytes = bytes_of(&digits_in(text))?;
    Some(reordered(&bytes))
}

// The short names with their GUIDs; they agree with the rules' texts.
fn short_types() -> [ShortType; 5]
    ensures { table_agrees result ≡ true }
{
    SHORT_TYPES
}

// The entry of a short name.
fn named(types: &[ShortType], name: &[u8]) -> Option<ShortType>
    ensures { result ≡ find (λ s. same name.now s.name.now) types.now }
{
    types
        .iter()
        .copied()
        .find(|short| octets::same(name, short.name))
}

// The bytes stored for the type that a short name stands for.
fn short_type(text: &[u8]) -> Option<[u8; 16]>
    ensures { result ≡ option_map (λ s. stored_of s.text) (find (is_named text.now) short_names) }
{
    let short = named(&short_types(), text)?;
    Some(short.guid)
}

// The bytes stored for a type, by its short name or its GUID text.
fn type_of(text: &[u8]) -> Option<[u8; 16]>
    ensures { result ≡ then_some (is_guid_text (expand text.now)) (stored_of (expand text.now)) }
{
    short_type(text).or(stored_of(text))
}

// Puts the bytes that a text was read as into guid.
fn put(stored: Option<[u8; 16]>, guid: &mut [u8]) -> Result<(), Refusal>
    requires { length guid.old ≡ 16 }
    ensures { (text : List ℕ) → stored ≡ then_some (is_guid_text text) (stored_of text)
        → record { number = number_of result; buffer = guid.new } ≡ read_of text guid.old }
{
    let stored = stored.ok_or(Refusal::NotGuidText)?;
    guid.copy_from_slice(&stored);
    Ok(())
}

// Reads a GUID text into 16 bytes.
pub fn read(text: &[u8], guid: &mut [u8]) -> Result<(), Refusal>
    ensures { record { number = number_of result; buffer = guid.new } ≡ read_of text.now guid.old }
{
    if guid.len() != 16 {
        return Err(Refusal::WrongLength);
    }
    put(stored_of(text), guid)
}

// Reads a type, a GUID text or a short name, into 16 bytes.
pub fn read_type(text: &[u8], guid: &mut [u8]) -> Result<(), Refusal>
    ensures { record { number = number_of result; buffer = guid.new } ≡ read_type_of text.now guid.old }
{
    if guid.len() != 16 {
        return Err(Refusal::WrongLength);
    }
    put(type_of(text), guid)
}

// Writes 16 bytes as a GUID text.
pub fn write(guid: &[u8], text: &mut [u8]) -> Result<(), Refusal>
    ensures { record { number = number_of result; buffer = text.new } ≡ write_of guid.now text.old }
{
    let guid = guid.as_array().ok_or(Refusal::WrongLength)?;
    if text.len() != 36 {
        return Err(Refusal::WrongLength);
    }
    text.copy_from_slice(&grouped(&digits_of(&reordered(guid))));
    Ok(())
}
