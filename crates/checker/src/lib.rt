// The call: sheets in, the log run, the result, the trail buffer and a cleared workspace out.
#![tactic(auto)]

ghost use Rattle.std.specs.Prelude.{◌≡◌, ◌*◌, ◌≤◌, length};
ghost use Rattle.calculus.specs.Numbers.{or_else, number_in};
ghost use Rattle.calculus.specs.Sheets.{set_words, step_rows, length_refusal};
ghost use Rattle.calculus.specs.Sorts.{sorts_refusal};
ghost use Rattle.calculus.specs.Terms.{terms_refusal};
ghost use Rattle.calculus.specs.Trail.{trail_numbers_of};
ghost use Rattle.calculus.specs.Steps.{trail_of};
ghost use Rattle.calculus.specs.Run.{turned_away, outcome_of, written};
ghost use Rattle.term_sheet.specs.Found.{most_numbers};
ghost use Rattle.state.specs.States.{Standing};
ghost use Rattle.run.specs.Ends.{run_in};
ghost use Rattle.checker.specs.Contract.{call_of, outcome_in, Ran, Answered};

use calculus::{Level, Outcome, Refusal};
use state::Status;

// The words of a set of term rows, of which there are n.
fn set_words(n: usize) -> usize
    ensures { result ≡ set_words n }
{
    4
}

// Refused before any step: no steps and no entries.
pub fn turned_away(number: u16) -> Outcome
    ensures { result ≡ outcome_of (turned_away number) }
{
    Outcome {
        verdict: 2,
        steps: 0,
        number: number,
        entries: 0,
        place: 0,
    }
}

// The sort rows, then the term rows.
#[tactic(auto, using(state::proofs::States::some_number), unfolding(calculus::specs::Numbers::or_else))]
fn check_sheets(sorts: &[u16], terms: &[u16]) -> Result<(), Refusal>
    requires { (length sorts.now ≤ 64) × (length terms.now ≤ most_numbers) }
    ensures { number_in result ≡ or_else (sorts_refusal sorts.now) (terms_refusal sorts.now terms.now) }
{
    sort_sheet::check_sorts(sorts)?;
    term_sheet::check_terms(sorts, terms)
}

// The log run from where it stands, and the trail written out.
fn run_log(
    terms: &[u16],
    steps: &[u16],
    work: &mut [u64],
    trail: &mut [u16],
    w: usize,
    n: usize,
    st: Status,
) -> Outcome
    requires { Standing w n terms.now work.old st × (step_rows steps.now ≤ 65535) × (n ≤ 65535) × (4 * n ≤ length trail.old) }
    ensures value { result ≡ outcome_of (run_in w n terms.now steps.now work.old st) }
    ensures trail_after { trail.new ≡ written
        (trail_numbers_of (trail_of (run_in w n terms.now steps.now work.old st).state)) trail.old }
{
    let e = run::run_steps(terms, steps, work, w, n, st);
    let count = e.status.count;
    trail_sheet::write(work, w, n, count, trail);
    Outcome {
        verdict: u16::from(e.verdict),
        steps: e.steps,
        number: e.refusal.map_or(0, u16::from),
        entries: count as u16,
        place: e.refusal.map_or(0, Refusal::place),
    }
}

// The call where the lengths are no trouble; the workspace is left as the run used it. It is refused where the sheets or the input are, before any step.
fn run_sheets(
    sorts: &[u16],
    terms: &[u16],
    inputs: &[u16],
    steps: &[u16],
    work: &mut [u64],
    trail: &mut [u16],
) -> Result<Outcome, Refusal>
    requires { length_refusal (call_of sorts.now terms.now inputs.now steps.now work.old trail.old) ≡ 0 }
    ensures { Ran (call_of sorts.now terms.now inputs.now steps.now
        work.old trail.old) (outcome_in result) trail.new }
{
    check_sheets(sorts, terms)?;
    let n = terms.len() / 6;
    let w = set_words(n);
    inputs::load(terms, inputs, work, w, n)?;
    let st = Status {
        count: inputs.len() / 2,
        top: Level(0),
        conflict: false,
    };
    Ok(run_log(terms, steps, work, trail, w, n, st))
}

// Runs a log. With 30, 31, 32 nothing is written; otherwise the entries of the trail stand in `trail`, in order, with what follows
// them as it was, and the workspace is all zero. Its old contents are immaterial.
pub fn answer(
    sorts: &[u16],
    terms: &[u16],
    inputs: &[u16],
    steps: &[u16],
    work: &mut [u64],
    trail: &mut [u16],
) -> Outcome
    ensures { Answered (call_of sorts.now terms.now inputs.now steps.now
        work.old trail.old) result work.new trail.new }
{
    if let Err(refusal) = sheets::check_lengths(sorts, terms, inputs, steps, work, trail) {
        return turned_away(u16::from(refusal));
    }
    let r = run_sheets(sorts, terms, inputs, steps, work, trail);
    trail::wipe(work);
    match r {
        Ok(outcome) => outcome,
        Err(refusal) => turned_away(u16::from(refusal)),
    }
}
