#![tactic(auto)]

// Values in a layout string: numbers of bytes, names and GUIDs; and the cut of a text at the byte that ends a part.
// An inner crate: no user calls it, so its functions may have a `requires`, which each caller meets.
ghost use Rattle.std.specs.Prelude.{◌≡◌, cond, ◌+◌, ◌≤◌, eqb, length, take, drop, None, Some};
ghost use Rattle.octets.specs.Tests.{find_ix};
ghost use Rattle.guid.specs.Text.{is_guid_text, stored_of};
ghost use Rattle.guid.specs.Types.{expand};
ghost use Rattle.gpt_string_model.specs.Text.{units, factor_in, multiplied, byte_count, is_partition_name, name_units, type_named};

// What stands before the first byte c, and what stands behind it: all, and nothing, where there is none.
pub fn cut(s: &[u8], c: u8) -> (&[u8], &[u8])
    ensures before { result.0.now ≡ take (find_ix (λ b. eqb b c) s.now) s.now }
    ensures behind { result.1.now ≡ drop (find_ix (λ b. eqb b c) s.now + 1) s.now }
{
    match s.iter().position(|b| *b == c) {
        Some(at) => (&s[..at], &s[at + 1..]),
        None => (s, &[]),
    }
}

// ---- numbers

// The factor that a unit is.
fn factor(u: &[u8]) -> Option<u64>
    ensures { result ≡ factor_in units u.now }
{
    if u.is_empty() {
        Some(1)
    } else if octets::same(u, b"KiB") {
        Some(1 << 10)
    } else if octets::same(u, b"MiB") {
        Some(1 << 20)
    } else if octets::same(u, b"GiB") {
        Some(1 << 30)
    } else {
        None
    }
}

// The number n in a unit. b5: numbers, multiplied, stay below 2^64
fn counted(n: u64, unit: &[u8]) -> Option<u64>
    ensures { result ≡ multiplied n (factor_in units unit.now) }
{
    n.checked_mul(factor(unit)?)
}

// The number of bytes that the value v says. b3: decimal bytes, leading zeros allowed, with optional KiB, MiB or GiB
pub fn byte_count(v: &[u8]) -> Option<u64>
    ensures { result ≡ byte_count v.now }
{
    let n = text_words::digits::some_digits(v, 0, 10, u64::MAX).ok()?;
    counted(n.value, &v[n.end..])
}

// ---- names

// b5: a name has 1 to 36 bytes of 21 to 7E hex without comma or semicolon. (A field holds neither.)
pub fn is_name(v: &[u8]) -> bool
    ensures { result ≡ is_partition_name v.now }
{
    text_words::is_sized(v, 36) && v.iter().all(|b| text_words::is_graphic(*b))
}

// A name as 36 units, one for each byte, then zeros.
pub fn name_units(v: &[u8]) -> [u16; 36]
    requires { length v.now ≤ 36 }
    ensures { result ≡ name_units v.now }
{
    let mut units = [0; 36];
    for (i, b) in v.iter().enumerate() {
        units[i] = u16::from(*b);
    }
    units
}

// The name that the value v is.
pub fn name_in(v: &[u8]) -> Option<[u16; 36]>
    ensures { result ≡ cond (is_partition_name v.now) (Some (name_units v.now)) None }
{
    if is_name(v) {
        Some(name_units(v))
    } else {
        None
    }
}

// ---- GUIDs

// The GUID that the value v is the text of.
pub fn guid_in(v: &[u8]) -> Option<[u8; 16]>
    ensures { result ≡ cond (is_guid_text v.now) (Some (stored_of v.now)) None }
{
    let mut guid = [0; 16];
    match guid::read(v, &mut guid) {
        Ok(()) => Some(guid),
        Err(_) => None,
    }
}

// The type that the value v is the GUID text or the short name of. It stands beside `guid_in`: one function that takes the reader as a closure is longer.
pub fn type_in(v: &[u8]) -> Option<[u8; 16]>
    ensures { result ≡ cond (is_guid_text (expand v.now)) (Some (type_named v.now)) None }
{
    let mut guid = [0; 16];
    match guid::read_type(v, &mut guid) {
        Ok(()) => Some(guid),
        Err(_) => None,
    }
}
