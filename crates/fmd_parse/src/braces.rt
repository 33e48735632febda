// Sections in braces.
ghost use Rattle.std.specs.Prelude.{◌≡◌, ◌≤◌, length};
ghost use Rattle.fmd_lex.specs.Invariants.{Within};
ghost use Rattle.fmd_table.specs.Table.{sections_in, HasRows};
ghost use Rattle.fmd_table.specs.Invariants.{IsParent, Linked};
ghost use Rattle.fmd_parse.specs.Invariants.{SectionRead, ListRead};

use fmd_head::ReadPart;
use fmd_head::section::head_at;
use fmd_lex::{Kind, Token, next_token};
use fmd_table::SectionRow;

// A section, put into row n, with the sections in its braces: how many sections the table then has.
#[cycle(read_list_read_section)]
fn read_section(
    text: &[u8],
    t: Token,
    level: u32,
    parent: u32,
    rows: &mut [SectionRow],
    n: usize,
) -> ReadPart<usize>
    requires { (length text.now ≤ 32768) × Within (length text.now) 0 t × HasRows 129 rows.old
        × IsParent n parent × Linked n rows.old }
    ensures { SectionRead text.now t level parent (sections_in n rows.old) rows.new result }
{
    let (h, u) = head_at(text, t, level, parent, n)?;
    fmd_table::push(rows, n, h);
    if !u.is(Kind::Open) {
        return Ok((n + 1, u));
    }
    let v = next_token(text, u.end);
    read_list(text, v, level + 1, n as u32, rows, n + 1)
}

// The sections up to the closing brace, from row n on: how many sections the table then has.
#[cycle(read_list_read_section)]
pub fn read_list(
    text: &[u8],
    t: Token,
    level: u32,
    parent: u32,
    rows: &mut [SectionRow],
    n: usize,
) -> ReadPart<usize>
    requires { (length text.now ≤ 32768) × Within (length text.now) 0 t × HasRows 129 rows.old
        × IsParent n parent × Linked n rows.old }
    ensures { ListRead text.now t level parent (sections_in n rows.old) rows.new result }
{
    let mut now = t;
    let mut m = n;
    'sections: loop {
        let (k, u) = read_section(text, now, level, parent, rows, m)?;
        if u.is(Kind::Close) {
            return Ok((k, next_token(text, u.end)));
        }
        now = u;
        m = k;
    }
}
