#![tactic(auto)]

// The call for C that makes a disk of a layout string. Its contract is one equation with `build_by` of gpt_string_model, for the result and both buffers.
ghost use Rattle.std.specs.Prelude.{◌≡◌, []};
ghost use Rattle.gpt_string_model.specs.Calls.{build_by};
ghost use Rattle.gpt_build.specs.Answers.{number_of};
ghost use Rattle.gpt_string.specs.Answers.{build_answer};
ghost use Rattle.c_disk.specs.Effects.{result_of, gpt_effect};

use gpt_build::Refusal;

// For C a refusal is its number.
fn number(r: Refusal) -> u32
    ensures { result ≡ number_of r }
{
    match r {
        Refusal::StringForm => 70,
        Refusal::NotWholeBlocks => 71,
        Refusal::StartTaken => 72,
        Refusal::Disk(k) => gpt::number(k),
    }
}

fn answered(a: Result<(), Refusal>) -> u32
    ensures { result ≡ result_of (build_answer a) }
{
    match a {
        Ok(()) => 0,
        Err(r) => number(r),
    }
}

#[unsafe(no_mangle)]
pub extern "C" fn usi_gpt_build(
    head: &mut [u8],
    tail: &mut [u8],
    n: u64,
    block: u64,
    alignment: u64,
    text: &[u8],
) -> u32
    ensures { record { result = result; head = head.new; tail = tail.new; values = [] }
        ≡ gpt_effect [] (build_by block n alignment text.now head.old tail.old) }
{
    answered(gpt_string::build(head, tail, n, block, alignment, text))
}
