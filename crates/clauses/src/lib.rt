// Clausal forms: whether a clause, which is an or or an and, has the opposites of some assignments as its arguments.
#![tactic(auto)]

ghost use Rattle.std.specs.Prelude.{◌≡◌, false, not, ◌&&◌, suc, eqb, [], ◌∷◌};
ghost use Rattle.calculus.specs.Lists.{all};
ghost use Rattle.calculus.specs.Clauses.{different, is_clause, clause_value, literal, paired, clausal};
ghost use Rattle.calculus.specs.Terms.{prop, filled};
ghost use Rattle.rule_claims.specs.Claims.{gap};
ghost use Rattle.clauses.specs.Pairs.{members_of, from, left_of};

use calculus::{Premise, Row};
use rows::{BLANK, term_at};
use rule_claims::{AND, NO_PREMISE, NOT, OR};

// Up to four members with their values. One whose row is blank is none, and those after it are not read.
#[derive(Clone, Copy)]
pub struct Members {
    pub p: Premise,
    pub q: Premise,
    pub r: Premise,
    pub s: Premise,
}

// The arguments that are left, before the first blank.
#[derive(Clone, Copy)]
pub struct Left {
    pub a: u16,
    pub b: u16,
    pub c: u16,
    pub d: u16,
}

// Whether t is a clause.
pub fn is_clause(terms: &[u16], t: Row) -> bool
    ensures { result ≡ is_clause terms.now t.0 }
{
    let e = term_at(terms, t);
    (e.head == OR) | (e.head == AND)
}

// The value that the clause t gets: an or is true, an and false.
pub fn value(terms: &[u16], t: Row) -> u16
    ensures { result ≡ clause_value terms.now t.0 }
{
    let e = term_at(terms, t);
    u16::from(e.head == OR)
}

// ---- the rows in ps before the first blank

// Whether all of them are of sort prop.
pub fn all_props(terms: &[u16], ps: &[u16]) -> bool
    ensures { result ≡ all (prop terms.now) (filled ps.now) }
{
    for &p in ps {
        if p == BLANK {
            return true;
        }
        let e = term_at(terms, Row(p));
        if e.sort != 0 {
            return false;
        }
    }
    true
}

// Whether x is none of them.
fn absent_from(ps: &[u16], x: u16) -> bool
    ensures { result ≡ all (λ y. not (eqb x y)) (filled ps.now) }
{
    for &p in ps {
        if p == BLANK {
            return true;
        }
        if x == p {
            return false;
        }
    }
    true
}

// Whether none of them is named twice.
pub fn different(ps: &[u16]) -> bool
    ensures { result ≡ different (filled ps.now) }
{
    let mut left = ps;
    while let [p, rest @ ..] = left {
        if *p == BLANK {
            return true;
        }
        if !absent_from(rest, *p) {
            return false;
        }
        left = rest;
    }
    true
}

// ---- literals in pairs with arguments

// Whether the assignment p appears as x in a clause that becomes v: negated where v is its value, as itself where it has the other.
#[tactic(auto, unfolding(calculus::specs::Clauses::literal, calculus::specs::Terms::cells, calculus::specs::Terms::arg))]
fn literal(terms: &[u16], v: u16, p: Premise, x: u16) -> bool
    ensures { result ≡ literal terms.now v p x }
{
    if p.value == v {
        let e = term_at(terms, Row(x));
        return (e.head == NOT) & (e.a == p.row);
    }
    x == p.row
}

// Member k, counted from 0; past the last there is none.
#[tactic(auto, using(crate::proofs::Laws::from_past), unfolding(crate::specs::Pairs::from))]
fn member(h: Members, k: usize) -> Premise
    ensures { result ≡ (from k h).p }
{
    match k {
        0 => h.p,
        1 => h.q,
        2 => h.r,
        3 => h.s,
        _ => NO_PREMISE,
    }
}

// Three arguments are left.
fn three(a: u16, b: u16, c: u16) -> Left
    ensures { left_of result ≡ filled (a ∷ b ∷ c ∷ []) }
{
    Left { a, b, c, d: BLANK }
}

// Whether the member p, which is member k, appears as y, and those behind it are paired with the rest. Behind the last member there is no call.
#[cycle(matched_paired)]
fn matched(terms: &[u16], v: u16, h: Members, k: usize, p: Premise, y: u16, rest: Left) -> bool
    requires { (p ≡ (from k h).p) × (gap p ≡ false) }
    ensures { result ≡ (literal terms.now v p y && paired terms.now v (members_of (from (suc k) h)) (left_of rest)) }
{
    if !literal(terms, v, p, y) {
        return false;
    }
    let q = member(h, k + 1);
    if q.row == BLANK {
        return rest.a == BLANK;
    }
    paired(terms, v, h, k + 1, rest)
}

// Whether the members from k on and the arguments are paired one to one: member k with one argument, those behind it with what is left.
#[cycle(matched_paired)]
fn paired(terms: &[u16], v: u16, h: Members, k: usize, e: Left) -> bool
    ensures { result ≡ paired terms.now v (members_of (from k h)) (left_of e) }
{
    let p = member(h, k);
    if p.row == BLANK {
        return e.a == BLANK;
    }
    if e.a == BLANK {
        return false;
    }
    if matched(terms, v, h, k, p, e.a, three(e.b, e.c, e.d)) {
        return true;
    }
    if e.b == BLANK {
        return false;
    }
    if matched(terms, v, h, k, p, e.b, three(e.a, e.c, e.d)) {
        return true;
    }
    if e.c == BLANK {
        return false;
    }
    if matched(terms, v, h, k, p, e.c, three(e.a, e.b, e.d)) {
        return true;
    }
    if e.d == BLANK {
        return false;
    }
    matched(terms, v, h, k, p, e.d, three(e.a, e.b, e.c))
}

// Whether the clause t is a clausal form of the members.
#[tactic(auto, unfolding(calculus::specs::Terms::args, calculus::specs::Terms::cells, crate::specs::Pairs::from))]
pub fn clausal(terms: &[u16], t: Row, h: Members) -> bool
    ensures { result ≡ clausal terms.now t.0 (members_of h) }
{
    let v = value(terms, t);
    let e = term_at(terms, t);
    let all = Left {
        a: e.a,
        b: e.b,
        c: e.c,
        d: e.d,
    };
    paired(terms, v, h, 0, all)
}
