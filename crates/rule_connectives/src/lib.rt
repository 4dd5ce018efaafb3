// From a connective to one of its arguments: neg, part.
#![tactic(auto, using(crate::proofs::Laws::laws), unfolding(calculus::specs::Rules::fits, calculus::specs::Terms::cells, calculus::specs::Terms::arg, calculus::specs::Terms::args))]

ghost use Rattle.std.specs.Prelude.{◌≡◌, List, ◌∷◌, ℕ, ◌+◌, eqb};
ghost use Rattle.calculus.specs.declared.Rule.TheVariants.{Negated, Part};
ghost use Rattle.calculus.specs.Lists.{has};
ghost use Rattle.calculus.specs.Terms.{filled, args_of};
ghost use Rattle.rule_claims.specs.Claims.{allows};

use calculus::{Row, Term};
use rows::{BLANK, term_at};
use rule_claims::{AND, Claim, NOT, OR, connected, one};

// One of them is 1 and the other 0.
fn opposed(a: u16, b: u16) -> bool
    ensures { result ≡ eqb (a + b) 1 }
{
    u32::from(a) + u32::from(b) == 1
}

// l is among the arguments, cell x in front of the rest.
fn more_has(l: Row, x: u16, rest: bool) -> bool
    ensures { (xs : List ℕ) → rest ≡ has (filled xs) l.0 → result ≡ has (filled (x ∷ xs)) l.0 }
{
    (x != BLANK) & ((l.0 == x) | rest)
}

// l is an argument of the term.
fn has_arg(e: Term, l: Row) -> bool
    ensures { result ≡ has (args_of e) l.0 }
{
    let d = more_has(l, e.d, false);
    let c = more_has(l, e.c, d);
    let b = more_has(l, e.b, c);
    more_has(l, e.a, b)
}

// not(l) gives l the other value.
pub fn neg(terms: &[u16], x: Claim) -> bool
    ensures { result ≡ allows terms.now Negated x }
{
    let p = term_at(terms, Row(x.p.row));
    let o = opposed(x.p.value, x.value);
    one(x) & ((p.head == NOT) & ((p.a == x.term.0) & o))
}

// or false gives an argument false; and true gives one true.
pub fn part(terms: &[u16], x: Claim) -> bool
    ensures { result ≡ allows terms.now Part x }
{
    let p = term_at(terms, Row(x.p.row));
    let h = has_arg(p, x.term);
    let o = connected(p, OR, x.p, 0, x.value, 0);
    let a = connected(p, AND, x.p, 1, x.value, 1);
    one(x) & (h & (o | a))
}
