// The tests of a step row by itself: its columns (number 9) and the rows that it names (number 11, and the column at which one is none).
#![tactic(auto)]

ghost use Rattle.std.specs.Prelude.{◌≡◌, [], ◌∷◌, not, ◌&&◌, ltb};
ghost use Rattle.calculus.specs.Lists.{all};
ghost use Rattle.calculus.specs.Terms.{left_filled};
ghost use Rattle.calculus.specs.Steps.{premises, premise_cells, is_blank, is_filled, decision_shaped, inference_shaped, term_shaped, pair_shaped, learn_shaped, known};
ghost use Rattle.calculus.specs.Place.{premise_fault, strange_place};

use calculus::Step;
use rows::BLANK;

// How many rules there are; they count from 0.
const RULES: u16 = 14;

// ---- number 9

// No premise column but p is filled.
fn no_premise_but_p(x: Step) -> bool
    ensures { result ≡ all is_blank (x.q ∷ x.r ∷ x.s ∷ x.t ∷ []) }
{
    (x.q == BLANK) & (x.r == BLANK) & (x.s == BLANK) & (x.t == BLANK)
}

// No premise column is filled.
fn no_premise(x: Step) -> bool
    ensures { result ≡ all is_blank (premise_cells x) }
{
    (x.p == BLANK) & no_premise_but_p(x)
}

// After a blank premise column there are blank ones only.
// Stays: written as `skip_while(filled).all(blank)`, the tests of a deduce's row take 108 instructions in place of 59.
#[tactic(auto, using(std::proofs::lemmas::Bool::Decides::nat_tests))]
fn from_left(x: Step) -> bool
    ensures { result ≡ left_filled (premise_cells x) }
{
    if x.p == BLANK {
        return (x.q == BLANK) & ((x.r == BLANK) & ((x.s == BLANK) & (x.t == BLANK)));
    }
    if x.q == BLANK {
        return (x.r == BLANK) & ((x.s == BLANK) & (x.t == BLANK));
    }
    if x.r == BLANK {
        return (x.s == BLANK) & (x.t == BLANK);
    }
    (x.s != BLANK) | (x.t == BLANK)
}

// The columns of decide: term and value.
pub fn decision_shaped(x: Step) -> bool
    ensures { result ≡ decision_shaped x }
{
    (x.rule == BLANK) & (x.term != BLANK) & (x.value != BLANK) & no_premise(x)
}

// The columns of deduce, clash and fail: rule, term, a truth value, and premises from the left.
pub fn inference_shaped(x: Step) -> bool
    ensures { result ≡ inference_shaped x }
{
    (x.rule < RULES) & (x.term != BLANK) & (x.value <= 1) & from_left(x)
}

// The columns of resolve, clear and jump: the term alone.
pub fn term_shaped(x: Step) -> bool
    ensures { result ≡ term_shaped x }
{
    (x.rule == BLANK) & (x.term != BLANK) & (x.value == BLANK) & no_premise(x)
}

// The columns of flip: the term and p.
pub fn pair_shaped(x: Step) -> bool
    ensures { result ≡ pair_shaped x }
{
    let p = (x.p != BLANK) & no_premise_but_p(x);
    (x.rule == BLANK) & (x.term != BLANK) & (x.value == BLANK) & p
}

// The columns of learn: the term, a level as its value, and from the left two to four members.
pub fn learn_shaped(x: Step) -> bool
    ensures { result ≡ learn_shaped x }
{
    let members = (x.p != BLANK) & (x.q != BLANK) & (x.t == BLANK) & from_left(x);
    (x.rule == BLANK) & (x.term != BLANK) & (x.value != BLANK) & members
}

// ---- number 11

// The premises are below n.
fn premises_known(n: usize, x: Step) -> bool
    ensures { result ≡ all (λ y. ltb y n) (premises x) }
{
    [x.p, x.q, x.r, x.s, x.t]
        .iter()
        .take_while(|y| **y != BLANK)
        .all(|y| (*y as usize) < n)
}

// The term and the premises are rows of the term sheet.
#[tactic(auto, unfolding(calculus::specs::Steps::known))]
pub fn known(terms: &[u16], x: Step) -> bool
    ensures { result ≡ known terms.now x }
{
    let n = terms.len() / 6;
    ((x.term as usize) < n) & premises_known(n, x)
}

// ---- the place of 11

// Whether a premise column is filled, but not below n.
fn is_strange(n: usize, y: u16) -> bool
    ensures { result ≡ (is_filled y && not (ltb y n)) }
{
    (y != BLANK) & (y as usize >= n)
}

// The column of the first premise that is not below n; the one past the last where there is none.
fn strange_premise(n: usize, x: Step) -> u16
    ensures { result ≡ premise_fault (λ y. not (ltb y n)) x }
{
    let before = [x.p, x.q, x.r, x.s, x.t]
        .iter()
        .position(|y| is_strange(n, *y))
        .unwrap_or(5);
    5 + before as u16
}

// The first column, of the term and the premises, that is no row of the term sheet.
#[tactic(auto, unfolding(calculus::specs::Place::strange_place))]
pub fn strange_place(terms: &[u16], x: Step) -> u16
    ensures { result ≡ strange_place terms.now x }
{
    let n = terms.len() / 6;
    if (x.term as usize) < n {
        return strange_premise(n, x);
    }
    3
}
