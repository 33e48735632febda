#![tactic(auto)]

// Tokens, numbers, names and flags of a layout text.
// An inner crate: no user calls it, so its functions may have a `requires`, which each caller meets.
ghost use Rattle.std.specs.Prelude.{false, ◌≡◌, ◌≤◌, ◌<◌, eqb, length, drop, get_or, take_while};
ghost use Rattle.text_words.specs.Classes.{is_digit};
ghost use Rattle.fmd_lex.specs.Chars.{is_word};
ghost use Rattle.fmd_lex.specs.Tokens.{kind_number, sign_kind, skip_from, word_from, token_at, token_bytes};
ghost use Rattle.fmd_lex.specs.Invariants.{Within};
ghost use Rattle.fmd_lex.specs.Numbers.{number_in};
ghost use Rattle.fmd_lex.specs.Names.{good_name, flag_of};

use text_words::{is_blank, is_digit, is_graphic, is_sized};

mod digits; // digits.rt: the number that a word is

// The kinds of tokens: the text's end, a byte that begins no token, a word, and the signs ( ) @ { }.
#[derive(Clone, Copy, PartialEq, Eq)]
pub enum Kind {
    End,
    Bad,
    Word,
    Left,
    Right,
    At,
    Open,
    Close,
}

// A token of the text, from the place start up to the place end.
#[derive(Clone, Copy)]
pub struct Token {
    pub kind: Kind,
    pub start: usize,
    pub end: usize,
}

impl Token {
    // It is of the kind.
    pub fn is(self, kind: Kind) -> bool
        ensures { result ≡ eqb (kind_number self.kind) (kind_number kind) }
    {
        self.kind == kind
    }
}

// The flags of a section.
#[derive(Clone, Copy)]
pub enum Flag {
    Cbfs,
    Preserve,
}

// ---- bytes

// 21 to 7E hex, but for the signs and #.
fn is_word(b: u8) -> bool
    ensures { result ≡ is_word b }
{
    // An arm for each: in one arm they are compared one after the other, which takes half as long again.
    match b {
        b'#' => false,
        b'@' => false,
        b'{' => false,
        b'}' => false,
        b'(' => false,
        b')' => false,
        _ => is_graphic(b),
    }
}

// The kind of a token of one byte: a sign's, or that of a byte that begins no token.
#[tactic(auto, unfolding(crate::specs::Tokens::sign_kind))]
fn sign_kind(b: u8) -> Kind
    ensures { result ≡ sign_kind b }
{
    match b {
        b'(' => Kind::Left,
        b')' => Kind::Right,
        b'@' => Kind::At,
        b'{' => Kind::Open,
        b'}' => Kind::Close,
        _ => Kind::Bad,
    }
}

// ---- tokens

// The place after blanks and comments.
fn skip(text: &[u8], at: usize) -> usize
    requires { at ≤ length text.now }
    ensures value { result ≡ skip_from false (drop at text.now) at }
    ensures within { (at ≤ result) × (result ≤ length text.now) }
{
    let mut comment = false;
    for i in at..text.len() {
        let b = text[i];
        if comment {
            if b == b'\n' {
                comment = false;
            }
        } else if b == b'#' {
            comment = true;
        } else if !is_blank(b) {
            return i;
        }
    }
    text.len()
}

// The place after the bytes of a word.
fn word_end(text: &[u8], at: usize) -> usize
    requires { at ≤ length text.now }
    ensures value { result ≡ word_from (drop at text.now) at }
    ensures within { (at ≤ result) × (result ≤ length text.now) }
{
    for i in at..text.len() {
        if !is_word(text[i]) {
            return i;
        }
    }
    text.len()
}

// The first token at or after the place at.
#[tactic(auto, unfolding(crate::specs::Tokens::token_at, crate::specs::Tokens::token_here))]
pub fn next_token(text: &[u8], at: usize) -> Token
    requires { at ≤ length text.now }
    ensures value { result ≡ token_at text.now at }
    ensures within { Within (length text.now) at result }
{
    let start = skip(text, at);
    let (kind, end) = match text.get(start) {
        None => (Kind::End, start),
        Some(b) if is_word(*b) => (Kind::Word, word_end(text, start + 1)),
        Some(b) => (sign_kind(*b), start + 1),
    };
    Token { kind, start, end }
}

// ---- names and flags

fn is_name(w: &[u8]) -> bool
    ensures { result ≡ good_name w.now }
{
    is_sized(w, 31) && !is_digit(w[0])
}

#[tactic(auto, unfolding(crate::specs::Names::flag_of))]
fn flag_of(w: &[u8]) -> Option<Flag>
    ensures { result ≡ flag_of w.now }
{
    if octets::same(w, b"CBFS") {
        Some(Flag::Cbfs)
    } else if octets::same(w, b"PRESERVE") {
        Some(Flag::Preserve)
    } else {
        None
    }
}

// ---- what the bytes of a token are

#[tactic(auto, unfolding(octets::specs::Bytes::part))]
pub fn number_at(text: &[u8], t: Token) -> Option<u32>
    requires { (t.start ≤ t.end) × (t.end ≤ length text.now) }
    ensures { result ≡ number_in (token_bytes text.now t) }
{
    digits::number_of(&text[t.start..t.end])
}

#[tactic(auto, unfolding(octets::specs::Bytes::part))]
pub fn name_at(text: &[u8], t: Token) -> bool
    requires { (t.start ≤ t.end) × (t.end ≤ length text.now) }
    ensures { result ≡ good_name (token_bytes text.now t) }
{
    is_name(&text[t.start..t.end])
}

#[tactic(auto, unfolding(octets::specs::Bytes::part))]
pub fn flag_at(text: &[u8], t: Token) -> Option<Flag>
    requires { (t.start ≤ t.end) × (t.end ≤ length text.now) }
    ensures { result ≡ flag_of (token_bytes text.now t) }
{
    flag_of(&text[t.start..t.end])
}

// The token's first byte is a digit.
pub fn digit_at(text: &[u8], t: Token) -> bool
    requires { t.start < length text.now }
    ensures { result ≡ is_digit (get_or text.now t.start 0) }
{
    is_digit(text[t.start])
}
