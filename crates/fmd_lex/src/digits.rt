// Numbers of a layout text.
ghost use Rattle.std.specs.Prelude.{◌≡◌, ◌≤◌, IfSome};
ghost use Rattle.fmd_lex.specs.Numbers.{unit_of, capped, scaled, number_in};

// What K, M and G stand for.
#[tactic(auto, unfolding(crate::specs::Numbers::unit_of))]
fn unit(b: u8) -> Option<u64>
    ensures value { result ≡ unit_of b }
    ensures small { IfSome result (λ u. u ≤ 1073741824) }
{
    match b {
        b'K' => Some(1024),
        b'M' => Some(1048576),
        b'G' => Some(1073741824),
        _ => None,
    }
}

// A number of at most 4,294,967,295.
#[tactic(auto, unfolding(crate::specs::Numbers::capped))]
fn capped(n: u64) -> Option<u32>
    ensures { result ≡ capped n }
{
    u32::try_from(n).ok()
}

// The number n with what stands behind it: nothing, or one unit letter.
#[tactic(auto, unfolding(crate::specs::Numbers::scaled))]
fn scaled(n: u64, rest: &[u8]) -> Option<u32>
    requires { n ≤ 4294967295 }
    ensures { result ≡ scaled n rest.now }
{
    match rest {
        [] => capped(n),
        [letter] => capped(n * unit(*letter)?),
        _ => None,
    }
}

// The number that the word w is.
#[tactic(auto, unfolding(crate::specs::Numbers::number_in))]
pub fn number_of(w: &[u8]) -> Option<u32>
    ensures { result ≡ number_in w.now }
{
    match text_words::digits::numeral_of(w, 4294967295) {
        Ok(numeral) => scaled(numeral.value, &w[numeral.end..]),
        Err(_) => None,
    }
}
