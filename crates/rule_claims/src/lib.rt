// What a deduce, clash or fail row claims, and what the fourteen rules share: how many premises there are, and the shape of a term.
#![tactic(auto)]

ghost use Rattle.std.specs.Prelude.{◌≡◌, ◌&&◌, not, eqb};
ghost use Rattle.calculus.specs.Terms.{eq_head};
ghost use Rattle.rule_claims.specs.Claims.{gap, after_first};

use calculus::{Premise, Row, Term};
use rows::BLANK;

// The heads' numbers, as a term sheet has them.
// Stays: numbers beside `calculus::Head`, since a rule asks for one head of a row that it has read: `l.head == EQ`, and not
// `Head::from(l.head) == Head::Equality`, which tells eight apart.
pub const EQ: u16 = 0;

pub const NOT: u16 = 1;

pub const AND: u16 = 2;

pub const OR: u16 = 3;

pub const SELECT: u16 = 4;

pub const STORE: u16 = 5;

// A column without a premise.
pub const NO_PREMISE: Premise = Premise {
    row: BLANK,
    value: 0,
};

// A term, its value, and the premises with their values on the trail.
// A premise whose row is blank is none, and those after it are not read. (The value stands last: beside the term the two would be copied as one word,
// and such a copy waits until both have been stored.)
#[derive(Clone, Copy)]
pub struct Claim {
    pub term: Row,
    pub p: Premise,
    pub q: Premise,
    pub r: Premise,
    pub s: Premise,
    pub t: Premise,
    pub value: u16,
}

// There is no premise.
pub fn none(x: Claim) -> bool
    ensures { result ≡ gap x.p }
{
    x.p.row == BLANK
}

// There is one premise.
pub fn one(x: Claim) -> bool
    ensures { result ≡ (not (gap x.p) && gap x.q) }
{
    (x.p.row != BLANK) & (x.q.row == BLANK)
}

// There are two premises.
pub fn two(x: Claim) -> bool
    ensures { result ≡ (not (gap x.p) && (not (gap x.q) && gap x.r)) }
{
    (x.p.row != BLANK) & ((x.q.row != BLANK) & (x.r.row == BLANK))
}

// The claim without its first premise.
pub fn after_first(x: Claim) -> Claim
    ensures { result ≡ after_first x }
{
    Claim {
        p: x.q,
        q: x.r,
        r: x.s,
        s: x.t,
        t: NO_PREMISE,
        ..x
    }
}

// The term is a = b.
pub fn is_eq(e: Term, a: Row, b: Row) -> bool
    ensures { result ≡ (eqb e.head eq_head && (eqb e.a a.0 && eqb e.b b.0)) }
{
    (e.head == EQ) & ((e.a == a.0) & (e.b == b.0))
}

// The term has head h, the premise has value w, and the value v that is given is z.
pub fn connected(e: Term, h: u16, p: Premise, w: u16, v: u16, z: u16) -> bool
    ensures { result ≡ (eqb e.head h && (eqb p.value w && eqb v z)) }
{
    (e.head == h) & ((p.value == w) & (v == z))
}
