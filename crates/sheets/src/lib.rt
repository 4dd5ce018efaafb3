// What is asked of the sheets before a step is run: the lengths (31, 30, 32) and one input row (6, 7, 8).
#![tactic(auto)]

ghost use Rattle.std.specs.Prelude.{◌≡◌};
ghost use Rattle.calculus.specs.Numbers.{number_in};
ghost use Rattle.calculus.specs.Sheets.{length_refusal};
ghost use Rattle.calculus.specs.Terms.{sort};
ghost use Rattle.sheets.specs.Rows.{fit_refusal, given_refusal};

use calculus::{Refusal, Row, Sort};
use rows::BLANK;

// ---- lengths

// Numbers 31, 30, 32: whole rows, ceilings, lent buffers.
#[tactic(auto, unfolding(calculus::specs::Sheets::length_refusal, calculus::specs::Numbers::unless))]
pub fn check_lengths(
    sorts: &[u16],
    terms: &[u16],
    inputs: &[u16],
    steps: &[u16],
    work: &[u64],
    trail: &[u16],
) -> Result<(), Refusal>
    ensures { number_in result ≡ length_refusal (record {
      sorts = sorts.now;
      terms = terms.now;
      inputs = inputs.now;
      steps = steps.now;
      work = work.now;
      trail = trail.now;
    }) }
{
    if !((sorts.len() % 2 == 0)
        & ((terms.len() % 6 == 0) & ((inputs.len() % 2 == 0) & (steps.len() % 9 == 0))))
    {
        return Err(Refusal::Malformed);
    }
    let n = terms.len() / 6;
    if !((sorts.len() / 2 <= 32)
        & ((n <= 256) & ((inputs.len() / 2 <= 256) & (steps.len() / 9 <= 65535))))
    {
        return Err(Refusal::Ceiling);
    }
    if !((n * 8 + 12 <= work.len()) & (4 * n <= trail.len())) {
        return Err(Refusal::Short);
    }
    Ok(())
}

// ---- inputs

// The sort of term row t.
pub fn sort_of(terms: &[u16], t: Row) -> Sort
    ensures { result.0 ≡ sort terms.now t.0 }
{
    Sort(rows::cell(terms, t.0 as usize * 6 + 1))
}

// Numbers 6 and 7, of an input row with term t and value v.
#[tactic(auto, unfolding(crate::specs::Rows::fit_refusal, calculus::specs::Numbers::unless))]
pub fn check_input(terms: &[u16], t: Row, v: u16) -> Result<(), Refusal>
    ensures { number_in result ≡ fit_refusal terms.now t.0 v }
{
    if usize::from(t.0) >= terms.len() / 6 {
        return Err(Refusal::NoTerm);
    }
    if (v == BLANK) | ((sort_of(terms, t) == Sort(0)) & (v > 1)) {
        return Err(Refusal::Value);
    }
    Ok(())
}

// Number 8, where `given` says whether the row's term stands on the trail already.
#[tactic(auto, unfolding(crate::specs::Rows::given_refusal, calculus::specs::Numbers::unless))]
pub fn check_given(given: bool) -> Result<(), Refusal>
    ensures { number_in result ≡ given_refusal given }
{
    if given {
        return Err(Refusal::GivenTwice);
    }
    Ok(())
}
