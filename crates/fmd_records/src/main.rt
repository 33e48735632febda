#![tactic(auto)]

// Lends a section list of 128 records that hold a known pattern (L16): for sample 10's text, then for one that the last row refuses. Of each:
//
//     accepted COUNT                the number of sections; or "refused" and the number
//     POSITION SIZE FLAGS NAME      of each of the 128 records, the name as 32 bytes in hex
//
// A second program that shares no code with this one prints the same lines (host/second).
ghost use Rattle.std.specs.Prelude.{map, ◌≡◌, ◌+◌, ◌≤◌, length, take};
ghost use Rattle.io.specs.Counts.{IsPrefixLen};
ghost use Rattle.octets.specs.Bytes.{flat};
ghost use Rattle.text_out.specs.Text.{Puts};
ghost use Rattle.fmd.specs.Calls.{number_of, image_in};
ghost use Rattle.fmd_records.specs.Records.{hex_bytes, record_line, answer_line, records_of};

use fmap_rules::ImagePosition;
use fmd::{Image, Refusal, SectionRecord};
use std::io;

// What a record holds before it is lent, so that it shows whether it was filled.
const PATTERN: SectionRecord = SectionRecord {
    position: ImagePosition(0xa5a5a5a5),
    size: 0x5a5a5a5a,
    flags: 0xc3c3,
    name: [0x7e; 32],
};

fn name(out: &mut [u8], at: usize, stored: &[u8; 32]) -> usize
    requires { at + 64 ≤ length out.old }
    ensures { (result ≤ at + 64) × Puts at (hex_bytes stored.now) result out.old out.new }
{
    let mut end = at;
    for b in stored {
        end = text_out::hex(out, end, *b as u64, 2);
    }
    end
}

fn record_line(out: &mut [u8], at: usize, s: &SectionRecord) -> usize
    requires { at + 88 ≤ length out.old }
    ensures { (result ≤ at + 88) × Puts at (record_line s.now) result out.old out.new }
{
    let a = fmd_lines::numbers(out, at, s);
    let b = name(out, a, &s.name);
    text_out::bytes(out, b, b"\n")
}

fn record_lines(out: &mut [u8], at: usize, sections: &[SectionRecord; 128]) -> usize
    requires { at + 11264 ≤ length out.old }
    ensures { (result ≤ at + 11264) × Puts at (flat (map record_line sections.now)) result out.old out.new }
{
    let mut end = at;
    for s in sections {
        end = record_line(out, end, s);
    }
    end
}

fn answer_line(out: &mut [u8], answer: &Result<Image, Refusal>) -> usize
    requires { ((image_in answer.now).count ≤ 128) × (13 ≤ length out.old) }
    ensures { (result ≤ 13) × Puts 0 (answer_line (image_in answer.now).count (number_of answer.now)) result out.old out.new }
{
    match answer {
        Ok(image) => fmd_lines::numbered(out, 0, b"accepted", image.count as u64),
        Err(_) => fmd_lines::numbered(out, 0, b"refused", fmd::number(answer) as u64),
    }
}

// The lines of a text.
fn records(out: &mut [u8], text: &[u8]) -> usize
    requires { 11277 ≤ length out.old }
    ensures { IsPrefixLen result out.new × (take result out.new ≡ records_of text.now) }
{
    let mut sections = [PATTERN; 128];
    let answer = fmd::list(text, &mut sections);
    let at = answer_line(out, &answer);
    record_lines(out, at, &sections)
}

fn show(rt: &impl Print, text: &[u8]) -> io::Result<()> {
    let mut out = [0u8; 16384];
    let n = records(&mut out, text);
    rt.write_all(&out[..n])
}

fn main(rt: HostRuntime) -> io::Result<()> {
    show(
        &rt,
        b"PRINTNODE@0xff800000 8M {\n  BOOT 2M { FMAP 4K }\n  RW_CAL(PRESERVE)@3M 64K\n  RW_LOG\n}\n",
    )?;
    show(
        &rt,
        b"PRINTNODE@0xff800000 8M {\n  BOOT 2M { FMAP 223 }\n  RW_CAL(PRESERVE)@3M 64K\n  RW_LOG\n}\n",
    )
}
