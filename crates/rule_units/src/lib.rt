// From a connective and all its arguments but one to that one: unit.
#![tactic(auto, using(crate::proofs::Laws::laws), unfolding(calculus::specs::Rules::fits, calculus::specs::Terms::cells, calculus::specs::Terms::args))]

ghost use Rattle.std.specs.Prelude.{◌≡◌, List, ◌∷◌, ℕ};
ghost use Rattle.calculus.specs.declared.Premise.{Premise};
ghost use Rattle.calculus.specs.declared.Rule.TheVariants.{Unit};
ghost use Rattle.calculus.specs.Sheets.{blank};
ghost use Rattle.calculus.specs.Terms.{filled, args_of};
ghost use Rattle.calculus.specs.Rules.{others, unit_at};
ghost use Rattle.rule_claims.specs.Claims.{stated, premises_of, allows};

use calculus::{Premise, Row, Term};
use rows::{BLANK, term_at};
use rule_claims::{AND, Claim, OR, after_first, connected};

// The premises are the arguments, each with value w: argument a and premise p in front of the rest.
fn more_other(w: u16, a: u16, p: Premise, rest: bool) -> bool
    ensures { (xs : List ℕ) (ps : List Premise) → rest ≡ others w (filled xs) (stated ps)
        → result ≡ others w (filled (a ∷ xs)) (stated (p ∷ ps)) }
{
    ((a == BLANK) & (p.row == BLANK))
        | ((a != BLANK) & ((p.row != BLANK) & (((p.row == a) & (p.value == w)) & rest)))
}

// The premises are the arguments but l, each with value w: argument a and premise p in front of the rest.
// `here` is the answer where a itself is l, `rest` where l stands further on.
fn more_unit(w: u16, l: Row, a: u16, p: Premise, here: bool, rest: bool) -> bool
    ensures { (xs : List ℕ) (ps : List Premise) → here ≡ others w (filled xs) (stated (p ∷ ps)) → rest ≡ unit_at w l.0 (filled xs) (stated ps)
        → result ≡ unit_at w l.0 (filled (a ∷ xs)) (stated (p ∷ ps)) }
{
    (a != BLANK)
        & (((a == l.0) & here) | ((p.row != BLANK) & (((p.row == a) & (p.value == w)) & rest)))
}

// l is an argument of the term, and the claim's premises are those at all other positions, each with value w. Here the term has no third argument.
fn unit_of_two(w: u16, l: Row, e: Term, x: Claim) -> bool
    requires { e.c ≡ blank }
    ensures { result ≡ unit_at w l.0 (args_of e) (premises_of x) }
{
    let last = x.q.row == BLANK;
    let ob = more_other(w, e.b, x.p, last);
    let ub = more_unit(w, l, e.b, x.q, last, false);
    more_unit(w, l, e.a, x.p, ob, ub)
}

// The same for any term. Most have no third argument, and then no later column is read.
fn unit_at(w: u16, l: Row, e: Term, x: Claim) -> bool
    ensures { result ≡ unit_at w l.0 (args_of e) (premises_of x) }
{
    if e.c == BLANK {
        return unit_of_two(w, l, e, x);
    }
    let od = more_other(w, e.d, x.r, x.s.row == BLANK);
    let oc = more_other(w, e.c, x.q, od);
    let ob = more_other(w, e.b, x.p, oc);
    let ud = more_unit(w, l, e.d, x.s, x.s.row == BLANK, false);
    let uc = more_unit(w, l, e.c, x.r, od, ud);
    let ub = more_unit(w, l, e.b, x.q, oc, uc);
    more_unit(w, l, e.a, x.p, ob, ub)
}

// or true with all other arguments false gives the remaining one true; and false with the others true gives it false.
pub fn unit(terms: &[u16], x: Claim) -> bool
    ensures { result ≡ allows terms.now Unit x }
{
    let p = term_at(terms, Row(x.p.row));
    let y = after_first(x);
    if p.head == OR {
        let o = connected(p, OR, x.p, 1, x.value, 1);
        let f = unit_at(0, x.term, p, y);
        return (x.p.row != BLANK) & (o & f);
    }
    let a = connected(p, AND, x.p, 0, x.value, 0);
    let t = unit_at(1, x.term, p, y);
    (x.p.row != BLANK) & (a & t)
}
