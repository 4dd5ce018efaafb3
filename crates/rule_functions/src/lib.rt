// From equal arguments to equal results: cong, pred.
#![tactic(auto, using(crate::proofs::Laws::laws), unfolding(calculus::specs::Rules::fits, calculus::specs::Terms::cells, calculus::specs::Terms::arg, calculus::specs::Terms::args))]

ghost use Rattle.std.specs.Prelude.{◌≡◌, List, ◌∷◌, ℕ};
ghost use Rattle.calculus.specs.declared.Premise.{Premise};
ghost use Rattle.calculus.specs.declared.Rule.TheVariants.{Congruence, Predicate};
ghost use Rattle.calculus.specs.Terms.{filled, args_of, head_of, is_free, is_function};
ghost use Rattle.calculus.specs.Rules.{pairs};
ghost use Rattle.rule_claims.specs.Claims.{stated, premises_of, allows};

use calculus::{Head, Premise, Row, Term};
use rows::{BLANK, term_at};
use rule_claims::{Claim, EQ, after_first, is_eq};

// The premises are true equalities of the arguments, one at every position: arguments a, b and premise p in front of the rest.
fn more_pair(terms: &[u16], a: u16, b: u16, p: Premise, rest: bool) -> bool
    ensures { (xs ys : List ℕ) (ps : List Premise) → rest ≡ pairs terms.now (filled xs) (filled ys) (stated ps)
        → result ≡ pairs terms.now (filled (a ∷ xs)) (filled (b ∷ ys)) (stated (p ∷ ps)) }
{
    // Past the last premise no row is read.
    if p.row == BLANK {
        return (a == BLANK) & (b == BLANK);
    }
    let e = term_at(terms, Row(p.row));
    let q = is_eq(e, Row(a), Row(b));
    (a != BLANK) & ((b != BLANK) & ((q & (p.value == 1)) & rest))
}

// The claim's premises are true equalities of the arguments of f and g, one at every position.
fn all_pairs(terms: &[u16], f: Term, g: Term, x: Claim) -> bool
    ensures { result ≡ pairs terms.now (args_of f) (args_of g) (premises_of x) }
{
    let d = more_pair(terms, f.d, g.d, x.s, x.t.row == BLANK);
    let c = more_pair(terms, f.c, g.c, x.r, d);
    let b = more_pair(terms, f.b, g.b, x.q, c);
    more_pair(terms, f.a, g.a, x.p, b)
}

// Whether h is the number of a free head.
fn is_free(h: u16) -> bool
    ensures { result ≡ is_free (head_of h) }
{
    matches!(Head::from(h), Head::Free)
}

// Whether h is the number of select, store or a free head.
fn is_function(h: u16) -> bool
    ensures { result ≡ is_function (head_of h) }
{
    matches!(Head::from(h), Head::Select | Head::Store | Head::Free)
}

// Equalities at every position give f(t..) = f(u..), where f is free, select or store.
pub fn cong(terms: &[u16], x: Claim) -> bool
    ensures { result ≡ allows terms.now Congruence x }
{
    let l = term_at(terms, x.term);
    let f = term_at(terms, Row(l.a));
    let g = term_at(terms, Row(l.b));
    let k = is_function(f.head);
    let e = all_pairs(terms, f, g, x);
    (l.head == EQ) & ((f.head == g.head) & (k & (e & (x.value == 1))))
}

// p(t..) with a value, then the equalities, give p(u..) that value, where p is free.
pub fn pred(terms: &[u16], x: Claim) -> bool
    ensures { result ≡ allows terms.now Predicate x }
{
    let l = term_at(terms, x.term);
    let p = term_at(terms, Row(x.p.row));
    let k = is_free(l.head);
    let y = after_first(x);
    let e = all_pairs(terms, p, l, y);
    (x.p.row != BLANK) & (k & ((p.head == l.head) & ((x.p.value == x.value) & e)))
}
