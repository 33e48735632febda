#![tactic(auto)]

// The lines that the programs print of a layout text.
// An inner crate: no user calls it, so its functions may have a `requires`, which each caller meets.
ghost use Rattle.std.specs.Prelude.{map, ◌≡◌, ◌+◌, ◌*◌, ◌≤◌, ◌<◌, ◌^◌, length, take};
ghost use Rattle.io.specs.Counts.{IsPrefixLen};
ghost use Rattle.octets.specs.Bytes.{flat};
ghost use Rattle.text_out.specs.Text.{Puts};
ghost use Rattle.fmd_lines.specs.Lines.{hex_field, name_text, numbers_text, section_line, image_line, numbered_line, listing_of};

use fmap_rules::ImagePosition;
use fmd::{Image, SectionRecord};

// A word, a space, a number and the line's end.
pub fn numbered(out: &mut [u8], at: usize, word: &[u8], n: u64) -> usize
    requires { (n < 1000) × (at + length word.now + 5 ≤ length out.old) }
    ensures { (result ≤ at + length word.now + 5)
        × Puts at (numbered_line word.now n) result out.old out.new }
{
    let a = text_out::bytes(out, at, word);
    let b = text_out::bytes(out, a, b" ");
    let c = text_out::decimal(out, b, n);
    text_out::bytes(out, c, b"\n")
}

// A number in hex and a space.
fn hex_field(out: &mut [u8], at: usize, n: u64, width: usize) -> usize
    requires { (1 ≤ width) × (width ≤ 16) × (n < 16 ^ width) × (at + width + 1 ≤ length out.old) }
    ensures { (result ≡ at + width + 1) × Puts at (hex_field width n) result out.old out.new }
{
    let a = text_out::hex(out, at, n, width);
    text_out::bytes(out, a, b" ")
}

// Position, size and flags of a section, a space after each.
pub fn numbers(out: &mut [u8], at: usize, s: &SectionRecord) -> usize
    requires { at + 23 ≤ length out.old }
    ensures { (result ≡ at + 23) × Puts at (numbers_text s.now) result out.old out.new }
{
    let a = hex_field(out, at, s.position.0 as u64, 8);
    let b = hex_field(out, a, s.size as u64, 8);
    hex_field(out, b, s.flags as u64, 4)
}

fn name(out: &mut [u8], at: usize, stored: &[u8; 32]) -> usize
    requires { at + 32 ≤ length out.old }
    ensures { (result ≤ at + 32) × Puts at (name_text stored.now) result out.old out.new }
{
    let k = fmap_rules::name_length(stored);
    text_out::bytes(out, at, &stored[..k])
}

fn section_line(out: &mut [u8], at: usize, s: &SectionRecord) -> usize
    requires { at + 56 ≤ length out.old }
    ensures { (result ≤ at + 56) × Puts at (section_line s.now) result out.old out.new }
{
    let a = numbers(out, at, s);
    let b = name(out, a, &s.name);
    text_out::bytes(out, b, b"\n")
}

fn image_line(out: &mut [u8], at: usize, i: &Image) -> usize
    requires { at + 59 ≤ length out.old }
    ensures { (result ≤ at + 59) × Puts at (image_line i.now) result out.old out.new }
{
    let a = name(out, at, &i.name);
    let b = text_out::bytes(out, a, b" ");
    let c = hex_field(out, b, i.size as u64, 8);
    let d = text_out::hex(out, c, i.address as u64, 16);
    text_out::bytes(out, d, b"\n")
}

// A line for each section. One loop over a closure for this and those of fmd_records is no plainer: a clause would have to say what each call puts.
fn section_lines(out: &mut [u8], at: usize, sections: &[SectionRecord]) -> usize
    requires { at + 56 * length sections.now ≤ length out.old }
    ensures { (result ≤ at + 56 * length sections.now) × Puts at (flat (map section_line sections.now)) result out.old out.new }
{
    let mut end = at;
    for s in sections {
        end = section_line(out, end, s);
    }
    end
}

// A section list before it is lent.
const BLANK: SectionRecord = SectionRecord {
    position: ImagePosition(0),
    size: 0,
    flags: 0,
    name: [0; 32],
};

// The listing of a text.
pub fn listing(out: &mut [u8], text: &[u8]) -> usize
    requires { 7227 ≤ length out.old }
    ensures { IsPrefixLen result out.new × (take result out.new ≡ listing_of text.now) }
{
    let mut sections = [BLANK; 128];
    let answer = fmd::list(text, &mut sections);
    match &answer {
        Ok(image) => {
            let at = image_line(out, 0, image);
            section_lines(out, at, &sections[..image.count as usize])
        }
        Err(_) => numbered(out, 0, b"refused", fmd::number(&answer) as u64),
    }
}
