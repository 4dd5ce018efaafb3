// Whether a decision is acceptable (Definition 3 of the CADE 2017 paper): the trail is read once, and the values of its equations that have the term on a
// side are held against what same or differ would give.
#![tactic(auto)]

ghost use Rattle.std.specs.Prelude.{◌≡◌, true, ◌||◌, ◌<◌, ◌≤◌, eqb};
ghost use Rattle.calculus.specs.Trail.{on, entry, value_at};
ghost use Rattle.calculus.specs.Steps.{misfits, opposes, acceptable};
ghost use Rattle.trail.specs.Words.{row_at, trail_in, Laid};
ghost use Rattle.acceptance.specs.Added.{added, is_side, Decidable, Skipped};

use calculus::Row;
use rule_claims::EQ;

// ---- the trail with t decided to have the value v

// Whether u has a value.
fn valued(work: &[u64], w: usize, n: usize, count: usize, t: Row, u: Row) -> bool
    requires { Laid w n work.now count }
    ensures { result ≡ (eqb t.0 u.0 || on (trail_in w n work.now count) u.0) }
{
    (t == u) | state::stands(work, w, n, count, u)
}

// The value of u, where it has one.
#[tactic(auto, using(crate::proofs::Laws::value_itself))]
fn value_of(work: &[u64], w: usize, n: usize, count: usize, t: Row, v: u16, u: Row) -> u16
    requires { Laid w n work.now count }
    ensures { on (added w n work.now count t.0 v) u.0 ≡ true → result ≡ value_at (added w n work.now count t.0 v) u.0 }
{
    if t == u {
        return v;
    }
    state::value_at(work, w, n, count, u)
}

// Whether a and b have values by which a = b should have another value than e.
fn misfits(
    work: &[u64],
    w: usize,
    n: usize,
    count: usize,
    t: Row,
    v: u16,
    a: Row,
    b: Row,
    e: u16,
) -> bool
    requires { Laid w n work.now count }
    ensures { result ≡ misfits (added w n work.now count t.0 v) a.0 b.0 e }
{
    let held = valued(work, w, n, count, t, a);
    let also = valued(work, w, n, count, t, b);
    let x = value_of(work, w, n, count, t, v, a);
    let y = value_of(work, w, n, count, t, v, b);
    held & (also & (e != u16::from(x == y)))
}

// Whether the entry of l opposes t.
fn opposes(
    terms: &[u16],
    work: &[u64],
    w: usize,
    n: usize,
    count: usize,
    t: Row,
    v: u16,
    l: Row,
) -> bool
    requires { Decidable w n terms.now work.now count t.0 × (on (trail_in w n work.now count) l.0 ≡ true) }
    ensures { result ≡ opposes terms.now (added w n work.now count t.0 v) t.0
        (entry (trail_in w n work.now count) l.0) }
{
    let i = l.0 as usize * 6;
    if terms[i] != EQ {
        return false;
    }
    let a = Row(terms[i + 2]);
    let b = Row(terms[i + 3]);
    if (a == t) | (b == t) {
        let e = trail::value(work, w, n, count, l);
        return misfits(work, w, n, count, t, v, a, b, e);
    }
    false
}

// ---- the trail, entry by entry

// Whether t is the first or the second argument of the entry at i.
fn has_side(terms: &[u16], work: &[u64], w: usize, n: usize, count: usize, t: Row, i: usize) -> bool
    requires { Decidable w n terms.now work.now count t.0 × (i < count) }
    ensures { result ≡ is_side terms.now t.0 (row_at w n work.now i) }
{
    let l = trail::row_at(work, w, n, count, i);
    let k = l.0 as usize * 6;
    (terms[k + 2] == t.0) | (terms[k + 3] == t.0)
}

// A place before which no entry from `from` on has t there: four entries are asked at a time, while none of them has.
fn skip(terms: &[u16], work: &[u64], w: usize, n: usize, count: usize, t: Row, from: usize) -> usize
    requires { Decidable w n terms.now work.now count t.0 × (from ≤ count) }
    ensures { Skipped w n terms.now work.now count t.0 from result }
{
    let mut i = from;
    // Stays: one entry at a time, as a `for` over them would ask, takes 134 ns a decision where this takes 61 (docs/BENCHMARKS.md).
    while count - i >= 4 {
        let first = has_side(terms, work, w, n, count, t, i);
        let second = has_side(terms, work, w, n, count, t, i + 1);
        let third = has_side(terms, work, w, n, count, t, i + 2);
        let fourth = has_side(terms, work, w, n, count, t, i + 3);
        if first | (second | (third | fourth)) {
            return i;
        }
        i += 4;
    }
    i
}

// Whether t with the value v is acceptable. Most entries do not have t as an argument, and are passed four at a time.
pub fn acceptable(
    terms: &[u16],
    work: &[u64],
    w: usize,
    n: usize,
    count: usize,
    t: Row,
    v: u16,
) -> bool
    requires { Decidable w n terms.now work.now count t.0 }
    ensures { result ≡ acceptable terms.now (trail_in w n work.now count) t.0 v }
{
    if state::is_prop(terms, t) {
        return true;
    }
    let mut i = 0;
    // Stays: `skip` moves i on by what it passes, four entries at a time.
    while i < count {
        i = skip(terms, work, w, n, count, t, i);
        if i == count {
            return true;
        }
        let l = trail::row_at(work, w, n, count, i);
        if opposes(terms, work, w, n, count, t, v, l) {
            return false;
        }
        i += 1;
    }
    true
}
