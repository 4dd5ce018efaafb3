// The rows of the sort sheet (number 1), and what they say of a sort.
#![tactic(auto)]

ghost use Rattle.std.specs.Prelude.{◌≡◌, ◌+◌, ◌≤◌, length};
ghost use Rattle.calculus.specs.Numbers.{number_in};
ghost use Rattle.calculus.specs.Sorts.{index_sort, value_sort, is_array, is_plain, sort_refusal, sorts_refusal};

use calculus::{Refusal, Sort};
use rows::BLANK;

// The index sort of sort s.
pub fn index_sort(sorts: &[u16], s: Sort) -> Sort
    ensures { result.0 ≡ index_sort sorts.now s.0 }
{
    Sort(rows::cell(sorts, (usize::from(s.0) * 2).saturating_sub(2)))
}

// The value sort of sort s.
pub fn value_sort(sorts: &[u16], s: Sort) -> Sort
    ensures { result.0 ≡ value_sort sorts.now s.0 }
{
    Sort(rows::cell(sorts, (usize::from(s.0) * 2).saturating_sub(1)))
}

// Whether sort s names two earlier sorts.
#[tactic(auto, unfolding(calculus::specs::Sorts::is_array))]
pub fn is_array(sorts: &[u16], s: Sort) -> bool
    ensures { result ≡ is_array sorts.now s.0 }
{
    let i = index_sort(sorts, s);
    let v = value_sort(sorts, s);
    ((Sort(0) < i) & (i < s)) & ((Sort(0) < v) & (v < s))
}

// Whether both columns of sort s are blank.
#[tactic(auto, unfolding(calculus::specs::Sorts::is_plain))]
fn is_plain(sorts: &[u16], s: Sort) -> bool
    ensures { result ≡ is_plain sorts.now s.0 }
{
    (index_sort(sorts, s) == Sort(BLANK)) & (value_sort(sorts, s) == Sort(BLANK))
}

// Number 1, of the row of sort k + 1.
#[tactic(auto, unfolding(calculus::specs::Sorts::sort_refusal, calculus::specs::Numbers::unless))]
fn check_sort(sorts: &[u16], k: u16) -> Result<(), Refusal>
    requires { k + 1 ≤ 65535 }
    ensures { number_in result ≡ sort_refusal sorts.now k }
{
    let s = Sort(k + 1);
    if is_array(sorts, s) | is_plain(sorts, s) {
        return Ok(());
    }
    Err(Refusal::Sort)
}

// Number 1: the first sort row in trouble decides.
#[tactic(auto, using(sheets::proofs::Laws::first_none, sheets::proofs::Laws::first_more, sheets::proofs::Laws::checked_found), unfolding(calculus::specs::Sorts::sorts_refusal))]
pub fn check_sorts(sorts: &[u16]) -> Result<(), Refusal>
    requires { length sorts.now ≤ 64 }
    ensures { number_in result ≡ sorts_refusal sorts.now }
{
    for k in 0..(sorts.len() / 2) as u16 {
        check_sort(sorts, k)?;
    }
    Ok(())
}
