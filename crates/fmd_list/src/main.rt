// Lists a layout text from standard input: the image, then each section, a line each; or the refusal (S10 to S13).
#![tactic(auto)]

ghost use Rattle.std.specs.Prelude.{IfOk};
ghost use Rattle.io.specs.Counts.{IsPrefixLen};

use std::io;
use std::io::Read;

// One byte more than a layout text may have, so that a longer text is refused and not cut.
const TEXT: usize = 32769;

// Reads until the buffer is full or the input ends: how many bytes were read.
fn read_all<R: Read>(input: &mut R, buf: &mut [u8]) -> io::Result<usize>
    ensures { IfOk result (λ n. IsPrefixLen n buf.new) }
{
    // A while: a turn ends where the system does, and no method of Read fills a lent slice as far as the input goes.
    let mut done = 0;
    while done < buf.len() {
        match input.read(&mut buf[done..])? {
            0 => return Ok(done),
            n => done += n,
        }
    }
    Ok(done)
}

fn show(rt: &(impl Print + Eprint), text: &[u8]) -> io::Result<()> {
    let mut out = [0u8; 8192];
    let n = fmd_lines::listing(&mut out, text);
    match rt.write_all(&out[..n]) {
        Ok(()) => Ok(()),
        Err(e) => eprintln!(rt; "Standard output can't be written: {e}"),
    }
}

fn main(rt: HostRuntime) -> io::Result<()> {
    let mut text = [0u8; TEXT];
    match read_all(&mut rt.stdin(), &mut text) {
        Ok(n) => show(&rt, &text[..n]),
        Err(e) => eprintln!(rt; "Standard input can't be read: {e}"),
    }
}
