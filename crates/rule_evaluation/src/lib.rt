// From all arguments of not, and, or to its value: eval.
#![tactic(auto, using(crate::proofs::Laws::laws), unfolding(calculus::specs::Rules::fits, calculus::specs::Terms::cells, calculus::specs::Terms::args))]

ghost use Rattle.std.specs.Prelude.{◌≡◌, List, [], ◌∷◌, map, ℕ};
ghost use Rattle.calculus.specs.declared.Premise.{Premise};
ghost use Rattle.calculus.specs.declared.Rule.TheVariants.{Evaluation};
ghost use Rattle.calculus.specs.Lists.{eq_list};
ghost use Rattle.calculus.specs.Terms.{filled, args_of};
ghost use Rattle.calculus.specs.Rules.{row_of, value_of, not_of, and_of, or_of, evaluates};
ghost use Rattle.rule_claims.specs.Claims.{stated, premises_of, allows};

use calculus::{Premise, Term};
use rows::{BLANK, term_at};
use rule_claims::{AND, Claim, NOT, OR};

// The premises' rows are the arguments: premise p and argument a in front of the rest.
fn more_same(p: Premise, a: u16, rest: bool) -> bool
    ensures { (ps : List Premise) (xs : List ℕ) → rest ≡ eq_list (map row_of (stated ps)) (filled xs)
        → result ≡ eq_list (map row_of (stated (p ∷ ps))) (filled (a ∷ xs)) }
{
    (p.row == a) & ((p.row == BLANK) | rest)
}

// All premises are true: p in front of the rest.
fn more_and(p: Premise, rest: bool) -> bool
    ensures { (ps : List Premise) → rest ≡ and_of (map value_of (stated ps)) → result ≡ and_of (map value_of (stated (p ∷ ps))) }
{
    (p.row == BLANK) | ((p.value == 1) & rest)
}

// Some premise is true: p in front of the rest.
fn more_or(p: Premise, rest: bool) -> bool
    ensures { (ps : List Premise) → rest ≡ or_of (map value_of (stated ps)) → result ≡ or_of (map value_of (stated (p ∷ ps))) }
{
    (p.row != BLANK) & ((p.value == 1) | rest)
}

// The premises' rows from column r on are the arguments from the third on. Most terms have none there, and then nothing more is read.
fn late_same(e: Term, x: Claim) -> bool
    ensures { result ≡ eq_list (map row_of (stated (x.r ∷ x.s ∷ x.t ∷ []))) (filled (e.c ∷ e.d ∷ [])) }
{
    if x.r.row == BLANK {
        return e.c == BLANK;
    }
    let d = more_same(x.s, e.d, x.t.row == BLANK);
    more_same(x.r, e.c, d)
}

// All premises from column r on are true.
fn late_and(x: Claim) -> bool
    ensures { result ≡ and_of (map value_of (stated (x.r ∷ x.s ∷ x.t ∷ []))) }
{
    if x.r.row == BLANK {
        return true;
    }
    let t = more_and(x.t, true);
    let s = more_and(x.s, t);
    more_and(x.r, s)
}

// Some premise from column r on is true.
fn late_or(x: Claim) -> bool
    ensures { result ≡ or_of (map value_of (stated (x.r ∷ x.s ∷ x.t ∷ []))) }
{
    if x.r.row == BLANK {
        return false;
    }
    let t = more_or(x.t, false);
    let s = more_or(x.s, t);
    more_or(x.r, s)
}

// The premises' rows are the term's arguments.
fn same_rows(e: Term, x: Claim) -> bool
    ensures { result ≡ eq_list (map row_of (premises_of x)) (args_of e) }
{
    let c = late_same(e, x);
    let b = more_same(x.q, e.b, c);
    more_same(x.p, e.a, b)
}

// What not makes of the premises' values.
fn first_false(x: Claim) -> bool
    ensures { result ≡ not_of (map value_of (premises_of x)) }
{
    (x.p.row == BLANK) | (x.p.value != 1)
}

// What and makes of them.
fn all_true(x: Claim) -> bool
    ensures { result ≡ and_of (map value_of (premises_of x)) }
{
    let r = late_and(x);
    let q = more_and(x.q, r);
    more_and(x.p, q)
}

// What or makes of them.
fn any_true(x: Claim) -> bool
    ensures { result ≡ or_of (map value_of (premises_of x)) }
{
    let r = late_or(x);
    let q = more_or(x.q, r);
    more_or(x.p, q)
}

// Whether head h over the premises' values has the claim's value.
fn evaluates(h: u16, x: Claim) -> bool
    ensures { result ≡ evaluates h (map value_of (premises_of x)) x.value }
{
    let truth = match h {
        NOT => first_false(x),
        AND => all_true(x),
        OR => any_true(x),
        _ => return false,
    };
    x.value == u16::from(truth)
}

// All arguments give not, and, or its value.
pub fn eval(terms: &[u16], x: Claim) -> bool
    ensures { result ≡ allows terms.now Evaluation x }
{
    let l = term_at(terms, x.term);
    same_rows(l, x) && evaluates(l.head, x)
}
