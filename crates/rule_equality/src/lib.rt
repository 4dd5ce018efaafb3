// The rules of equality: same, differ, refl, sym, trans.
#![tactic(auto, using(rule_claims::proofs::Laws::counted), unfolding(calculus::specs::Rules::fits, calculus::specs::Terms::cells, calculus::specs::Terms::arg))]

ghost use Rattle.std.specs.Prelude.{◌≡◌};
ghost use Rattle.calculus.specs.declared.Rule.TheVariants.{Same, Differ, Reflexivity, Symmetry, Transitivity};
ghost use Rattle.rule_claims.specs.Claims.{allows};

use calculus::Row;
use rows::term_at;
use rule_claims::{Claim, EQ, is_eq, none, one, two};

// t, u with equal values give t = u true.
pub fn same(terms: &[u16], x: Claim) -> bool
    ensures { result ≡ allows terms.now Same x }
{
    let l = term_at(terms, x.term);
    let e = is_eq(l, Row(x.p.row), Row(x.q.row));
    two(x) & (e & ((x.p.value == x.q.value) & (x.value == 1)))
}

// t, u with unequal values give t = u false.
pub fn differ(terms: &[u16], x: Claim) -> bool
    ensures { result ≡ allows terms.now Differ x }
{
    let l = term_at(terms, x.term);
    let e = is_eq(l, Row(x.p.row), Row(x.q.row));
    two(x) & (e & ((x.p.value != x.q.value) & (x.value == 0)))
}

// t = t.
pub fn refl(terms: &[u16], x: Claim) -> bool
    ensures { result ≡ allows terms.now Reflexivity x }
{
    let l = term_at(terms, x.term);
    none(x) & ((l.head == EQ) & ((l.a == l.b) & (x.value == 1)))
}

// t = u gives u = t.
pub fn sym(terms: &[u16], x: Claim) -> bool
    ensures { result ≡ allows terms.now Symmetry x }
{
    let l = term_at(terms, x.term);
    let p = term_at(terms, Row(x.p.row));
    let e = is_eq(p, Row(l.b), Row(l.a));
    one(x) & ((l.head == EQ) & ((e & (x.p.value == 1)) & (x.value == 1)))
}

// t = u, u = w give t = w.
pub fn trans(terms: &[u16], x: Claim) -> bool
    ensures { result ≡ allows terms.now Transitivity x }
{
    let l = term_at(terms, x.term);
    let p = term_at(terms, Row(x.p.row));
    let q = term_at(terms, Row(x.q.row));
    let e = is_eq(p, Row(l.a), Row(p.b));
    let f = is_eq(q, Row(p.b), Row(l.b));
    two(x) & ((l.head == EQ) & ((e & (x.p.value == 1)) & ((f & (x.q.value == 1)) & (x.value == 1))))
}
