// The exported calls, one static library for all of them. None asks anything of its caller, and each states its result and every lent buffer.
#![tactic(auto)]

ghost use Rattle.std.specs.Prelude.{length};
ghost use Rattle.checker.specs.Contract.{call_of, Answered};
ghost use Rattle.reader.specs.Text.{lent_of, TextRead};
ghost use Rattle.verdict.specs.Contract.{Checked};

use calculus::Outcome;
use reader::ReadOutcome;

// Runs a log over four sheets of numbers. With 30, 31, 32 nothing is written; otherwise the entries of the trail stand in `trail`, in order, with
// what follows them as it was, and the workspace is all zero. Its old contents are immaterial.
#[unsafe(no_mangle)]
pub extern "C" fn cdsat_run(
    sorts: &[u16],
    terms: &[u16],
    inputs: &[u16],
    steps: &[u16],
    work: &mut [u64],
    trail: &mut [u16],
) -> Outcome
    ensures { Answered (call_of sorts.now terms.now inputs.now steps.now
        work.old trail.old) result work.new trail.new }
{
    checker::answer(sorts, terms, inputs, steps, work, trail)
}

// Reads a text into four sheets, which hold the rows and then zeros, or zeros alone where the text is refused.
#[unsafe(no_mangle)]
pub extern "C" fn cdsat_read(
    text: &[u8],
    sorts: &mut [u16],
    terms: &mut [u16],
    inputs: &mut [u16],
    steps: &mut [u16],
) -> ReadOutcome
    ensures { TextRead text.now
        (lent_of sorts.old terms.old inputs.old steps.old)
        result sorts.new terms.new inputs.new steps.new }
{
    reader::read_text(text, sorts, terms, inputs, steps)
}

// Reads a text and runs its log. `said` gets the line that a person is told where the text is refused, cut where the buffer is short, and then zeros.
#[unsafe(no_mangle)]
pub extern "C" fn cdsat_check(text: &[u8], said: &mut [u8]) -> Outcome
    ensures { Checked text.now (length said.old) result said.new }
{
    verdict::check_text(text, said)
}
