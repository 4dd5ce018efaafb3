// The rule test that a deduce, clash or fail row asks for: whether the rule fits, and if not, the column at which the row went wrong.
// The column is sought only where the rule does not fit, which ends a run: a completion of the row is looked for among the rows of the term sheet.
//
// What a search reads, where the sheet has N rows (the term's column takes two searches, one for each value, and every later column one):
// - with the first premise known, or settled by the term: what the rule needs, up to 4N rows (see `needs`), and a rule test;
// - neg, part, unit with no premise known: some rows for each of N first premises, for unit in four ways;
// - trans with no premise known: N rows, and N more for each row that begins as the term does;
// - pred with no premise known: N rows, and 4N more for each row that has the term's head: at most some N times 4N.
// A row by deep is not searched: it went wrong at the term.
#![tactic(auto)]

ghost use Rattle.std.specs.Prelude.{◌≡◌, false, cond, [], ◌≤◌, ltb, length, take};
ghost use Rattle.calculus.specs.Lists.{all};
ghost use Rattle.calculus.specs.Sheets.{term_rows};
ghost use Rattle.calculus.specs.Numbers.{fit_of};
ghost use Rattle.calculus.specs.Place.{at_term, with, first_unfit, unfit_place};
ghost use Rattle.completions.specs.Needs.{searched, ways};
ghost use Rattle.completions.specs.Search.{over, serves, followed, extensible, findable};
ghost use Rattle.rule_claims.specs.Claims.{no_premise, premises_of, allows};
ghost use Rattle.needs.specs.Listed.{listed};
ghost use Rattle.places.specs.Tested.{Tested, Begins, Counted, claim_of};

use calculus::{Premise, Refusal, Row, Rule};
use needs::{Columns, Known, needed};
use rows::{BLANK, term_at};
use rule_claims::{Claim, EQ, NO_PREMISE};

// ---- known premises over what is needed

// p where b holds, else q.
fn pick(b: bool, p: Premise, q: Premise) -> Premise
    ensures { result ≡ cond b p q }
{
    if b { p } else { q }
}

// The premises of x, and from the column after them on those of y.
fn laid_over(x: Columns, y: Columns) -> Columns
    ensures { listed result ≡ over (listed x) (listed y) }
{
    let m = x.count;
    Columns {
        count: m.max(y.count),
        p: pick(0 < m, x.p, y.p),
        q: pick(1 < m, x.q, y.q),
        r: pick(2 < m, x.r, y.r),
        s: pick(3 < m, x.s, y.s),
        t: pick(4 < m, x.t, y.t),
    }
}

// All premises are rows of a term sheet that has n.
fn all_rows(n: u16, x: Columns) -> bool
    ensures { result ≡ all (λ p. ltb p.row n) (listed x) }
{
    let m = x.count;
    ((m <= 0) | (x.p.row < n))
        & (((m <= 1) | (x.q.row < n))
            & (((m <= 2) | (x.r.row < n))
                & (((m <= 3) | (x.s.row < n)) & ((m <= 4) | (x.t.row < n)))))
}

// Premise p where it counts, else none.
fn counted(b: bool, p: Premise) -> Premise
    ensures { result ≡ cond b p no_premise }
{
    pick(b, p, NO_PREMISE)
}

// The claim that the premises give l the value v.
fn claim(l: Row, v: u16, x: Columns) -> Claim
    ensures { result ≡ claim_of l v x }
{
    let m = x.count;
    Claim {
        term: l,
        value: v,
        p: counted(0 < m, x.p),
        q: counted(1 < m, x.q),
        r: counted(2 < m, x.r),
        s: counted(3 < m, x.s),
        t: counted(4 < m, x.t),
    }
}

// The premises are rows, and give l the value v.
fn serves(terms: &[u16], n: u16, k: Rule, l: Row, v: u16, x: Columns) -> bool
    requires { n ≡ term_rows terms.now }
    ensures { result ≡ serves terms.now k l.0 v (listed x) }
{
    if !all_rows(n, x) {
        return false;
    }
    rules::fits(terms, k, claim(l, v, x))
}

// ---- the search

// In how many ways the premises may follow from the term, its value and the first premise.
fn ways(k: Rule) -> u16
    ensures { result ≡ ways k }
{
    match k {
        Rule::Unit => 4,
        Rule::Evaluation => 2,
        _ => 1,
    }
}

// How many rows are tried as the first premise where none is known.
fn tried(n: u16, k: Rule) -> u16
    ensures { result ≡ cond (searched k) n 1 }
{
    match k {
        Rule::Transitivity | Rule::Negated | Rule::Part | Rule::Unit | Rule::Predicate => n,
        _ => 1,
    }
}

// Some way completes the known premises, the first being f.
fn followed(terms: &[u16], n: u16, k: Rule, l: Row, v: u16, known: Columns, f: Premise) -> bool
    requires { n ≡ term_rows terms.now }
    ensures { result ≡ followed terms.now k l.0 v (listed known) f }
{
    for i in 0..ways(k) {
        let open = needed(
            terms,
            n,
            k,
            Known {
                term: l,
                value: v,
                first: f,
                way: i,
            },
        );
        if serves(terms, n, k, l, v, laid_over(known, open)) {
            return true;
        }
    }
    false
}

// Whether row r may be the first premise. It is asked only of the rules that seek equalities besides: a row that is passed over saves finding them.
fn begins(terms: &[u16], k: Rule, l: Row, r: Row) -> bool
    ensures { Begins terms.now k l.0 r.0 result }
{
    let e = term_at(terms, l);
    let f = term_at(terms, r);
    match k {
        Rule::Transitivity => (f.head == EQ) & (f.a == e.a),
        Rule::Predicate => f.head == e.head,
        _ => true,
    }
}

// Some way completes row r as the first premise, where none is known.
fn begun(terms: &[u16], n: u16, k: Rule, l: Row, v: u16, none: Columns, r: Row) -> bool
    requires { (n ≡ term_rows terms.now) × (none.count ≡ 0) }
    ensures { result ≡ followed terms.now k l.0 v [] (with 0 r.0) }
{
    if !begins(terms, k, l, r) {
        return false;
    }
    followed(terms, n, k, l, v, none, Premise { row: r.0, value: 0 })
}

// The known premises can be completed. Where none is known and the rule does not settle the first one, every row is tried as the first.
fn extensible(terms: &[u16], n: u16, k: Rule, l: Row, v: u16, known: Columns) -> bool
    requires { n ≡ term_rows terms.now }
    ensures { result ≡ extensible terms.now k l.0 v (listed known) }
{
    if known.count != 0 {
        return followed(terms, n, k, l, v, known, known.p);
    }
    for r in 0..tried(n, k) {
        if begun(terms, n, k, l, v, known, Row(r)) {
            return true;
        }
    }
    false
}

// ---- the columns of a claim

// How many premises the claim has.
fn count(x: Claim) -> u16
    ensures { Counted x result }
{
    if x.p.row == BLANK {
        return 0;
    }
    if x.q.row == BLANK {
        return 1;
    }
    if x.r.row == BLANK {
        return 2;
    }
    if x.s.row == BLANK {
        return 3;
    }
    if x.t.row == BLANK {
        return 4;
    }
    5
}

// The first m premises of the claim, which has as many.
fn first(m: u16, x: Claim) -> Columns
    requires { m ≤ length (premises_of x) }
    ensures { listed result ≡ take m (premises_of x) }
{
    Columns {
        count: m,
        p: x.p,
        q: x.q,
        r: x.r,
        s: x.s,
        t: x.t,
    }
}

// The columns up to c of the claim, which has `count` premises, can be completed.
fn findable(terms: &[u16], n: u16, k: Rule, x: Claim, count: u16, c: u16) -> bool
    requires { (n ≡ term_rows terms.now) × (count ≡ length (premises_of x)) }
    ensures { result ≡ findable terms.now k x.term.0 x.value (premises_of x) c }
{
    let l = x.term;
    if c < 4 {
        let none = first(0, x);
        return extensible(terms, n, k, l, 0, none) | extensible(terms, n, k, l, 1, none);
    }
    let m = c - 4;
    // After a blank the row stands as it is.
    if count < m {
        return rules::fits(terms, k, x);
    }
    extensible(terms, n, k, l, x.value, first(m, x))
}

// The first column, from the term on, where this fails, for a rule that is not always at the term.
fn first_unfit(terms: &[u16], n: u16, k: Rule, x: Claim) -> u16
    requires { Tested terms.now n x × (at_term k ≡ false) }
    ensures { result ≡ first_unfit terms.now k x.term.0 x.value (premises_of x) }
{
    let m = count(x);
    for j in 0..7 {
        if !findable(terms, n, k, x, m, 3 + j) {
            return 3 + j;
        }
    }
    10
}

// The column at which a row that does not fit went wrong: by deep the term, by any other rule the first unfit one.
fn place_of(terms: &[u16], n: u16, k: Rule, x: Claim) -> u16
    requires { Tested terms.now n x }
    ensures { result ≡ unfit_place terms.now k x.term.0 x.value (premises_of x) }
{
    match k {
        Rule::Deep => 3,
        _ => first_unfit(terms, n, k, x),
    }
}

// ---- the rule test

// Whether the rule gives the claim's term its value from the claim's premises; if not, the column at which the row went wrong.
pub fn test(terms: &[u16], n: usize, rule: Rule, x: Claim) -> Result<(), Refusal>
    requires { Tested terms.now n x }
    ensures { result ≡ fit_of (allows terms.now rule x) (unfit_place terms.now rule x.term.0 x.value (premises_of x)) }
{
    if rules::fits(terms, rule, x) {
        return Ok(());
    }
    Err(Refusal::Unfit(place_of(terms, n as u16, rule, x)))
}
