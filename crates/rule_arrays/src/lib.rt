// The rules of arrays: read, skip.
#![tactic(auto, using(rule_claims::proofs::Laws::counted), unfolding(calculus::specs::Rules::fits, calculus::specs::Terms::cells, calculus::specs::Terms::arg))]

ghost use Rattle.std.specs.Prelude.{◌≡◌};
ghost use Rattle.calculus.specs.declared.Rule.TheVariants.{Read, Skip};
ghost use Rattle.rule_claims.specs.Claims.{allows};

use calculus::Row;
use rows::term_at;
use rule_claims::{Claim, EQ, SELECT, STORE, is_eq, none, one};

// select(store(a, i, v), i) = v.
pub fn read(terms: &[u16], x: Claim) -> bool
    ensures { result ≡ allows terms.now Read x }
{
    let l = term_at(terms, x.term);
    let s = term_at(terms, Row(l.a));
    let a = term_at(terms, Row(s.a));
    none(x)
        & ((l.head == EQ)
            & ((s.head == SELECT)
                & ((a.head == STORE) & ((s.b == a.b) & ((l.b == a.c) & (x.value == 1))))))
}

// i = j false gives select(store(a, i, v), j) = select(a, j).
pub fn skip(terms: &[u16], x: Claim) -> bool
    ensures { result ≡ allows terms.now Skip x }
{
    let l = term_at(terms, x.term);
    let s = term_at(terms, Row(l.a));
    let r = term_at(terms, Row(l.b));
    let a = term_at(terms, Row(s.a));
    let p = term_at(terms, Row(x.p.row));
    let e = is_eq(p, Row(a.b), Row(s.b));
    one(x)
        & ((l.head == EQ)
            & ((s.head == SELECT)
                & ((r.head == SELECT)
                    & ((a.head == STORE)
                        & ((r.a == a.a)
                            & ((r.b == s.b) & ((e & (x.p.value == 0)) & (x.value == 1))))))))
}
