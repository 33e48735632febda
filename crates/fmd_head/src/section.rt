// A section up to its braces. Each function is given the token that stands there.
// (Text and token stay two parameters: each answer brings the next token, so a struct of both would be made anew at each call.)
ghost use Rattle.std.specs.Prelude.{◌≡◌, ◌+◌, ◌≤◌, length};
ghost use Rattle.fmd_lex.specs.Invariants.{Within};
ghost use Rattle.fmd_head.specs.Heads.{amount_at, named_at, mark_at, last_at, other_at, flags_at, offset_at, size_at, head_at};
ghost use Rattle.fmd_head.specs.Invariants.{ReadIn, HeadIn};

use super::{ReadPart, Refusal, fault_at};
use fmd_lex::{Flag, Kind, Token, next_token};
use fmd_table::{ParentOffset, Section};

// The number that must stand at t.
#[tactic(auto, unfolding(crate::specs::Heads::amount_at))]
pub fn amount_at(text: &[u8], t: Token) -> ReadPart<u32>
    requires { Within (length text.now) 0 t }
    ensures value { result ≡ amount_at text.now t }
    ensures within { ReadIn (length text.now) t.end result }
{
    if !t.is(Kind::Word) {
        return Err(fault_at(Refusal::OutOfGrammar, t));
    }
    match fmd_lex::number_at(text, t) {
        Some(n) => Ok((n, next_token(text, t.end))),
        None => Err(fault_at(Refusal::BadNumber, t)),
    }
}

// The section's name.
#[tactic(auto, unfolding(crate::specs::Heads::named_at))]
fn named_at(text: &[u8], t: Token, level: u32, parent: u32, count: usize) -> ReadPart<Section>
    requires { (length text.now ≤ 32768) × Within (length text.now) 0 t }
    ensures value { result ≡ named_at text.now t level parent count }
    ensures within { HeadIn (length text.now) (t.start + 1) level count result }
{
    if !t.is(Kind::Word) {
        return Err(fault_at(Refusal::OutOfGrammar, t));
    }
    if !fmd_lex::name_at(text, t) {
        return Err(fault_at(Refusal::BadName, t));
    }
    if 128 <= count || 8 < level {
        return Err(fault_at(Refusal::TooMany, t));
    }
    let h = Section {
        offset: None,
        size: None,
        place: t.start as u32,
        length: (t.end - t.start) as u32,
        cbfs: false,
        preserve: false,
        parent,
        level,
    };
    Ok((h, next_token(text, t.end)))
}

// One flag, marked in the section.
#[tactic(auto, unfolding(crate::specs::Heads::mark_at))]
fn mark_at(text: &[u8], t: Token, h: Section) -> ReadPart<Section>
    requires { Within (length text.now) 0 t }
    ensures value { result ≡ mark_at text.now t h }
    ensures within { ReadIn (length text.now) t.end result }
{
    if !t.is(Kind::Word) {
        return Err(fault_at(Refusal::OutOfGrammar, t));
    }
    let mut marked = h;
    match fmd_lex::flag_at(text, t) {
        Some(Flag::Cbfs) if !h.cbfs => marked.cbfs = true,
        Some(Flag::Preserve) if !h.preserve => marked.preserve = true,
        _ => return Err(fault_at(Refusal::BadFlag, t)),
    }
    Ok((marked, next_token(text, t.end)))
}

// After both flags: the end. (A third word is unknown or repeats.)
#[tactic(auto, unfolding(crate::specs::Heads::last_at))]
fn last_at(text: &[u8], t: Token, h: Section) -> ReadPart<Section>
    requires { Within (length text.now) 0 t }
    ensures value { result ≡ last_at text.now t h }
    ensures within { ReadIn (length text.now) t.end result }
{
    if t.is(Kind::Right) {
        return Ok((h, next_token(text, t.end)));
    }
    mark_at(text, t, h)
}

// After one flag: the end, or the other flag.
#[tactic(auto, unfolding(crate::specs::Heads::other_at))]
fn other_at(text: &[u8], t: Token, h: Section) -> ReadPart<Section>
    requires { Within (length text.now) 0 t }
    ensures value { result ≡ other_at text.now t h }
    ensures within { ReadIn (length text.now) t.end result }
{
    if t.is(Kind::Right) {
        return Ok((h, next_token(text, t.end)));
    }
    let (marked, u) = mark_at(text, t, h)?;
    last_at(text, u, marked)
}

// The flags, where a parenthesis stands.
#[tactic(auto, unfolding(crate::specs::Heads::flags_at))]
fn flags_at(text: &[u8], t: Token, h: Section) -> ReadPart<Section>
    requires { Within (length text.now) 0 t }
    ensures value { result ≡ flags_at text.now t h }
    ensures within { ReadIn (length text.now) t.start result }
{
    if !t.is(Kind::Left) {
        return Ok((h, t));
    }
    let (marked, u) = mark_at(text, next_token(text, t.end), h)?;
    other_at(text, u, marked)
}

// The offset, where an @ stands.
#[tactic(auto, unfolding(crate::specs::Heads::offset_at))]
fn offset_at(text: &[u8], t: Token, h: Section) -> ReadPart<Section>
    requires { Within (length text.now) 0 t }
    ensures value { result ≡ offset_at text.now t h }
    ensures within { ReadIn (length text.now) t.start result }
{
    if !t.is(Kind::At) {
        return Ok((h, t));
    }
    let (n, u) = amount_at(text, next_token(text, t.end))?;
    let offset = Some(ParentOffset(n));
    Ok((Section { offset, ..h }, u))
}

// The size, where a word that begins with a digit stands.
#[tactic(auto, unfolding(crate::specs::Heads::size_at))]
fn size_at(text: &[u8], t: Token, h: Section) -> ReadPart<Section>
    requires { Within (length text.now) 0 t }
    ensures value { result ≡ size_at text.now t h }
    ensures within { ReadIn (length text.now) t.start result }
{
    if !t.is(Kind::Word) || !fmd_lex::digit_at(text, t) {
        return Ok((h, t));
    }
    let (n, u) = amount_at(text, t)?;
    Ok((Section { size: Some(n), ..h }, u))
}

// A section up to its braces.
#[tactic(auto, unfolding(crate::specs::Heads::head_at))]
pub fn head_at(text: &[u8], t: Token, level: u32, parent: u32, count: usize) -> ReadPart<Section>
    requires { (length text.now ≤ 32768) × Within (length text.now) 0 t }
    ensures value { result ≡ head_at text.now t level parent count }
    ensures within { HeadIn (length text.now) (t.start + 1) level count result }
{
    let (named, u) = named_at(text, t, level, parent, count)?;
    let (flagged, v) = flags_at(text, u, named)?;
    let (placed, w) = offset_at(text, v, flagged)?;
    size_at(text, w, placed)
}
