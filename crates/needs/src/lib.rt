// The premises that a rule needs for a term and its value: rows that are still open follow from the first premise, or are found in the term sheet.
// Finding an equality reads up to N rows, where the sheet has N: sym, trans and skip find one, cong and pred four; the other rules find none.
#![tactic(auto, unfolding(completions::specs::Needs::needs, calculus::specs::Terms::cells, calculus::specs::Terms::arg, calculus::specs::Terms::args))]

ghost use Rattle.std.specs.Prelude.{◌≡◌, cond, [], ◌∷◌, map, ◌<◌, ◌≤◌, eqb, length};
ghost use Rattle.calculus.specs.declared.Rule.TheVariants.{Same, Differ, Symmetry, Transitivity, Negated, Part, Unit, Evaluation, Congruence, Predicate, Skip};
ghost use Rattle.calculus.specs.Sheets.{blank, term_rows};
ghost use Rattle.calculus.specs.Terms.{args_of};
ghost use Rattle.calculus.specs.Rules.{is_eq, all_but};
ghost use Rattle.calculus.specs.Place.{with};
ghost use Rattle.completions.specs.Needs.{equation, equations};
ghost use Rattle.needs.specs.Listed.{listed, Four, three_of, needs_of};

use calculus::{Premise, Row, Rule, Term};
use rows::{BLANK, term_at};
use rule_claims::{EQ, NO_PREMISE, is_eq};

// The first `count` of five premises, from the left; what stands after them is not read.
// Stays: five fields and a count, and not an array, since a rule's premises are the five columns of a step row, each of which has a name in `Claim` and
// in the sheets' format.
#[derive(Clone, Copy)]
pub struct Columns {
    pub count: u16,
    pub p: Premise,
    pub q: Premise,
    pub r: Premise,
    pub s: Premise,
    pub t: Premise,
}

// What the premises follow from: the term, its value, the first premise, and the way where there are several.
#[derive(Clone, Copy)]
pub struct Known {
    pub term: Row,
    pub value: u16,
    pub first: Premise,
    pub way: u16,
}

// Row a with value w.
fn with(w: u16, a: Row) -> Premise
    ensures { result ≡ with w a.0 }
{
    Premise { row: a.0, value: w }
}

// No premise.
#[tactic(auto, unfolding(crate::specs::Listed::listed))]
fn none() -> Columns
    ensures { listed result ≡ [] }
{
    Columns {
        count: 0,
        p: NO_PREMISE,
        q: NO_PREMISE,
        r: NO_PREMISE,
        s: NO_PREMISE,
        t: NO_PREMISE,
    }
}

// One premise.
#[tactic(auto, unfolding(crate::specs::Listed::listed))]
fn one(p: Premise) -> Columns
    ensures { listed result ≡ p ∷ [] }
{
    Columns {
        count: 1,
        p,
        q: p,
        r: p,
        s: p,
        t: p,
    }
}

// Two premises.
#[tactic(auto, unfolding(crate::specs::Listed::listed))]
fn two(p: Premise, q: Premise) -> Columns
    ensures { listed result ≡ p ∷ q ∷ [] }
{
    Columns {
        count: 2,
        p,
        q,
        r: q,
        s: q,
        t: q,
    }
}

// One more premise in front.
fn front(p: Premise, x: Columns) -> Columns
    requires { x.count ≤ 4 }
    ensures { listed result ≡ p ∷ listed x }
{
    Columns {
        count: x.count + 1,
        p,
        q: x.p,
        r: x.q,
        s: x.r,
        t: x.s,
    }
}

// ---- the arguments of a term

// How many there are.
fn count(e: Term) -> u16
    ensures { result ≡ length (args_of e) }
{
    if e.a == BLANK {
        return 0;
    }
    if e.b == BLANK {
        return 1;
    }
    if e.c == BLANK {
        return 2;
    }
    if e.d == BLANK {
        return 3;
    }
    4
}

// All of them, each with value w.
fn arguments(w: u16, e: Term) -> Columns
    ensures { Four result (map (with w) (args_of e)) }
{
    let d = with(w, Row(e.d));
    Columns {
        count: count(e),
        p: with(w, Row(e.a)),
        q: with(w, Row(e.b)),
        r: with(w, Row(e.c)),
        s: d,
        t: d,
    }
}

// Cell y, or a blank where cell x is blank.
fn behind(x: u16, y: u16) -> u16
    ensures { result ≡ cond (eqb x blank) blank y }
{
    if x == BLANK { BLANK } else { y }
}

// The term with the cells a, b, c as its arguments.
fn three(e: Term, a: u16, b: u16, c: u16) -> Term
    ensures { result ≡ three_of e a b c }
{
    Term {
        head: e.head,
        sort: e.sort,
        a,
        b,
        c,
        d: BLANK,
    }
}

// The term without its i-th argument.
fn but(i: u16, e: Term) -> Term
    ensures { args_of result ≡ all_but i (args_of e) }
{
    match i {
        0 => three(e, behind(e.a, e.b), e.c, e.d),
        1 => three(e, e.a, behind(e.b, e.c), e.d),
        2 => three(e, e.a, e.b, behind(e.c, e.d)),
        3 => three(e, e.a, e.b, e.c),
        _ => e,
    }
}

// ---- equalities

// Whether row e is a = b. Of a row that is no equality the head alone is read.
fn is_equation(terms: &[u16], n: u16, e: Row, a: Row, b: Row) -> bool
    requires { (n ≡ term_rows terms.now) × (e.0 < n) }
    ensures { result ≡ is_eq terms.now e.0 a.0 b.0 }
{
    if terms[e.0 as usize * 6] != EQ {
        return false;
    }
    let t = term_at(terms, e);
    is_eq(t, a, b)
}

// The first row that is a = b; n where there is none.
fn find_equation(terms: &[u16], n: u16, a: Row, b: Row) -> Row
    requires { n ≡ term_rows terms.now }
    ensures { result.0 ≡ equation terms.now a.0 b.0 }
{
    for e in 0..n {
        if is_equation(terms, n, Row(e), a, b) {
            return Row(e);
        }
    }
    Row(n)
}

// The true equality of a and b.
fn equal(terms: &[u16], n: u16, a: Row, b: Row) -> Premise
    requires { n ≡ term_rows terms.now }
    ensures { result ≡ with 1 (equation terms.now a.0 b.0) }
{
    with(1, find_equation(terms, n, a, b))
}

// The true equalities between the arguments of f and g, position by position as far as both have one.
fn equalities(terms: &[u16], n: u16, f: Term, g: Term) -> Columns
    requires { n ≡ term_rows terms.now }
    ensures { Four result (equations terms.now (args_of f) (args_of g)) }
{
    let m = count(f).min(count(g));
    let p = equal(terms, n, Row(f.a), Row(g.a));
    let q = equal(terms, n, Row(f.b), Row(g.b));
    let r = equal(terms, n, Row(f.c), Row(g.c));
    let s = equal(terms, n, Row(f.d), Row(g.d));
    Columns {
        count: m,
        p,
        q,
        r,
        s,
        t: s,
    }
}

// ---- what each rule needs

// Both sides, with equal values.
fn same(terms: &[u16], x: Known) -> Columns
    ensures { listed result ≡ needs_of terms.now Same x }
{
    let e = term_at(terms, x.term);
    let v = x.first.value;
    two(with(v, Row(e.a)), with(v, Row(e.b)))
}

// Both sides, with different values.
fn differ(terms: &[u16], x: Known) -> Columns
    ensures { listed result ≡ needs_of terms.now Differ x }
{
    let e = term_at(terms, x.term);
    let v = x.first.value;
    two(with(v, Row(e.a)), with(1u16.saturating_sub(v), Row(e.b)))
}

// The equality the other way round.
fn sym(terms: &[u16], n: u16, x: Known) -> Columns
    requires { n ≡ term_rows terms.now }
    ensures { listed result ≡ needs_of terms.now Symmetry x }
{
    let e = term_at(terms, x.term);
    one(equal(terms, n, Row(e.b), Row(e.a)))
}

// The first premise, and the equality from its right side to the term's.
fn trans(terms: &[u16], n: u16, x: Known) -> Columns
    requires { n ≡ term_rows terms.now }
    ensures { listed result ≡ needs_of terms.now Transitivity x }
{
    let e = term_at(terms, x.term);
    let p = Row(x.first.row);
    let f = term_at(terms, p);
    let q = equal(terms, n, Row(f.b), Row(e.b));
    two(with(1, p), q)
}

// The first premise, with the other value.
fn neg(terms: &[u16], x: Known) -> Columns
    ensures { listed result ≡ needs_of terms.now Negated x }
{
    one(with(1u16.saturating_sub(x.value), Row(x.first.row)))
}

// The first premise, with the same value.
fn part(terms: &[u16], x: Known) -> Columns
    ensures { listed result ≡ needs_of terms.now Part x }
{
    one(with(x.value, Row(x.first.row)))
}

// The first premise with the same value, and its arguments with the other, without one of them.
fn unit(terms: &[u16], x: Known) -> Columns
    ensures { listed result ≡ needs_of terms.now Unit x }
{
    let p = Row(x.first.row);
    let e = term_at(terms, p);
    let rest = arguments(1u16.saturating_sub(x.value), but(x.way, e));
    front(with(x.value, p), rest)
}

// The term's arguments, all with the value that the way is.
fn eval(terms: &[u16], x: Known) -> Columns
    ensures { listed result ≡ needs_of terms.now Evaluation x }
{
    let e = term_at(terms, x.term);
    arguments(x.way, e)
}

// The equalities between the arguments of the two sides.
fn cong(terms: &[u16], n: u16, x: Known) -> Columns
    requires { n ≡ term_rows terms.now }
    ensures { listed result ≡ needs_of terms.now Congruence x }
{
    let e = term_at(terms, x.term);
    let f = term_at(terms, Row(e.a));
    let g = term_at(terms, Row(e.b));
    equalities(terms, n, f, g)
}

// The first premise with the same value, and the equalities between its arguments and the term's.
fn pred(terms: &[u16], n: u16, x: Known) -> Columns
    requires { n ≡ term_rows terms.now }
    ensures { listed result ≡ needs_of terms.now Predicate x }
{
    let e = term_at(terms, x.term);
    let p = Row(x.first.row);
    let f = term_at(terms, p);
    let rest = equalities(terms, n, f, e);
    front(with(x.value, p), rest)
}

// The false equality of the index that is stored at and the index that is read.
fn skip(terms: &[u16], n: u16, x: Known) -> Columns
    requires { n ≡ term_rows terms.now }
    ensures { listed result ≡ needs_of terms.now Skip x }
{
    let e = term_at(terms, x.term);
    let s = term_at(terms, Row(e.a));
    let a = term_at(terms, Row(s.a));
    one(with(0, find_equation(terms, n, Row(a.b), Row(s.b))))
}

// The premises that the rule needs; deep is not searched, and has none here.
pub fn needed(terms: &[u16], n: u16, rule: Rule, x: Known) -> Columns
    requires { n ≡ term_rows terms.now }
    ensures { listed result ≡ needs_of terms.now rule x }
{
    match rule {
        Rule::Same => same(terms, x),
        Rule::Differ => differ(terms, x),
        Rule::Symmetry => sym(terms, n, x),
        Rule::Transitivity => trans(terms, n, x),
        Rule::Negated => neg(terms, x),
        Rule::Part => part(terms, x),
        Rule::Unit => unit(terms, x),
        Rule::Evaluation => eval(terms, x),
        Rule::Congruence => cong(terms, n, x),
        Rule::Predicate => pred(terms, n, x),
        Rule::Skip => skip(terms, n, x),
        Rule::Reflexivity | Rule::Read | Rule::Deep | Rule::Unlisted => none(),
    }
}
