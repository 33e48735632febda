#![tactic(auto)]

// Heads: the image of a layout text up to its opening brace, and a section up to its braces; or the first fault there.
// An inner crate: no user calls it, so its functions may have a `requires`, which each caller meets.
ghost use Rattle.std.specs.Prelude.{◌≡◌};
ghost use Rattle.fmd_head.specs.Refusals.{number_of};

use fmd_lex::Token;

pub mod section; // section.rt: a section up to its braces
pub mod front; // front.rt: the image up to its opening brace

// Why a layout text is refused.
#[derive(Clone, Copy)]
pub enum Refusal {
    TooLong,
    OutOfGrammar,
    BadNumber,
    BadName,
    NameTwice,
    TooMany,
    BadFlag,
    Undecided,
    Unfit,
    NoMapSection,
}

// The number of a refusal. (A function and no From: docs/TRACE.md, W15, names it.)
pub fn number(r: Refusal) -> u32
    ensures { result ≡ number_of r }
{
    match r {
        Refusal::TooLong => 50,
        Refusal::OutOfGrammar => 51,
        Refusal::BadNumber => 52,
        Refusal::BadName => 53,
        Refusal::NameTwice => 54,
        Refusal::TooMany => 55,
        Refusal::BadFlag => 56,
        Refusal::Undecided => 57,
        Refusal::Unfit => 58,
        Refusal::NoMapSection => 59,
    }
}

// A fault and its place in the text.
#[derive(Clone, Copy)]
pub struct TextFault {
    pub refusal: Refusal,
    pub place: usize,
}

// What is read and the token after it; or a fault.
pub type ReadPart<T> = Result<(T, Token), TextFault>;

// A fault at the token t.
pub fn fault_at(refusal: Refusal, t: Token) -> TextFault
    ensures { result ≡ record { refusal = refusal; place = t.start } }
{
    TextFault {
        refusal,
        place: t.start,
    }
}

// The image as it stands in the text, with its address where one is given: its name by place and length.
#[derive(Clone, Copy)]
pub struct TextImage {
    pub address: Option<u32>,
    pub size: u32,
    pub place: u16,
    pub length: u8,
}
