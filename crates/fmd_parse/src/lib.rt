#![tactic(auto)]

// Image and sections of a layout text, or its first fault; the rows of the whole section list that the text alone decides.
// An inner crate: no user calls it, so its functions may have a `requires`, which each caller meets.
ghost use Rattle.std.specs.Prelude.{◌≡◌, ◌≤◌, length};
ghost use Rattle.fmd_table.specs.Table.{HasRows};
ghost use Rattle.fmd_parse.specs.Layouts.{answer_of, layout_of};
ghost use Rattle.fmd_parse.specs.Invariants.{AnswerIn};

use fmd_head::{Refusal, TextFault, TextImage, fault_at};
use fmd_lex::{Kind, next_token};
use fmd_table::SectionRow;

pub mod rows; // rows.rt: the rows of the whole section list
mod braces; // braces.rt: a section, and the sections in braces

// What is read of a layout text: the image, and how many sections the table has.
#[derive(Clone, Copy)]
pub struct TextLayout {
    pub image: TextImage,
    pub count: usize,
}

// Image and sections of a layout text, or its first fault.
pub fn read_layout(text: &[u8], rows: &mut [SectionRow]) -> Result<TextLayout, TextFault>
    requires { (length text.now ≤ 32768) × HasRows 129 rows.old }
    ensures rows_after { answer_of result rows.new ≡ layout_of text.now }
    ensures linked { AnswerIn rows.new result }
{
    let (image, u) = fmd_head::front::image_at(text, next_token(text, 0))?;
    fmd_table::clear(rows);
    let (count, end) = braces::read_list(text, u, 1, 128, rows, 0)?;
    if !end.is(Kind::End) {
        return Err(fault_at(Refusal::OutOfGrammar, end));
    }
    Ok(TextLayout { image, count })
}
