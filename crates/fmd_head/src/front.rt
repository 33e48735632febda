// The image up to its opening brace. Each function is given the token that stands there.
ghost use Rattle.std.specs.Prelude.{◌≡◌, ◌≤◌, length};
ghost use Rattle.fmd_lex.specs.Invariants.{Within};
ghost use Rattle.fmd_head.specs.Images.{title_at, address_at, length_at, open_at, image_at};
ghost use Rattle.fmd_head.specs.Invariants.{ReadIn};

use super::section::amount_at;
use super::{ReadPart, Refusal, TextImage, fault_at};
use fmd_lex::{Kind, Token, next_token};

// The image's name.
#[tactic(auto, unfolding(crate::specs::Images::title_at))]
fn title_at(text: &[u8], t: Token) -> ReadPart<TextImage>
    requires { (length text.now ≤ 32768) × Within (length text.now) 0 t }
    ensures value { result ≡ title_at text.now t }
    ensures within { ReadIn (length text.now) 0 result }
{
    if !t.is(Kind::Word) {
        return Err(fault_at(Refusal::OutOfGrammar, t));
    }
    if !fmd_lex::name_at(text, t) {
        return Err(fault_at(Refusal::BadName, t));
    }
    let i = TextImage {
        address: None,
        size: 0,
        place: t.start as u16,
        length: (t.end - t.start) as u8,
    };
    Ok((i, next_token(text, t.end)))
}

// The address, where an @ stands.
#[tactic(auto, unfolding(crate::specs::Images::address_at))]
fn address_at(text: &[u8], t: Token, i: TextImage) -> ReadPart<TextImage>
    requires { Within (length text.now) 0 t }
    ensures value { result ≡ address_at text.now t i }
    ensures within { ReadIn (length text.now) 0 result }
{
    if !t.is(Kind::At) {
        return Ok((i, t));
    }
    let (n, u) = amount_at(text, next_token(text, t.end))?;
    let address = Some(n);
    Ok((TextImage { address, ..i }, u))
}

// The image's size.
#[tactic(auto, unfolding(crate::specs::Images::length_at))]
fn length_at(text: &[u8], t: Token, i: TextImage) -> ReadPart<TextImage>
    requires { Within (length text.now) 0 t }
    ensures value { result ≡ length_at text.now t i }
    ensures within { ReadIn (length text.now) 0 result }
{
    let (size, u) = amount_at(text, t)?;
    if size < 98 || 16777216 < size {
        return Err(fault_at(Refusal::BadNumber, t));
    }
    Ok((TextImage { size, ..i }, u))
}

// The opening brace.
#[tactic(auto, unfolding(crate::specs::Images::open_at))]
fn open_at(text: &[u8], t: Token, i: TextImage) -> ReadPart<TextImage>
    requires { Within (length text.now) 0 t }
    ensures value { result ≡ open_at text.now t i }
    ensures within { ReadIn (length text.now) 0 result }
{
    if !t.is(Kind::Open) {
        return Err(fault_at(Refusal::OutOfGrammar, t));
    }
    Ok((i, next_token(text, t.end)))
}

// The image up to its opening brace.
#[tactic(auto, unfolding(crate::specs::Images::image_at))]
pub fn image_at(text: &[u8], t: Token) -> ReadPart<TextImage>
    requires { (length text.now ≤ 32768) × Within (length text.now) 0 t }
    ensures value { result ≡ image_at text.now t }
    ensures within { ReadIn (length text.now) 0 result }
{
    let (titled, u) = title_at(text, t)?;
    let (addressed, v) = address_at(text, u, titled)?;
    let (sized, w) = length_at(text, v, addressed)?;
    open_at(text, w, sized)
}
