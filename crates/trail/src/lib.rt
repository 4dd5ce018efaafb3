// The trail in a lent workspace, by term: a look-up reads the words of one term. The layout is in specs/Words; w is the words of a set,
// `terms` the term rows, n the entries.
#![tactic(auto)]

ghost use Rattle.std.specs.Prelude.{◌≡◌, true, ◌-◌, ◌^◌, ◌<◌, max, length, replicate};
ghost use Rattle.calculus.specs.Trail.{on, value_at, level_at, decided_at, assigned};
ghost use Rattle.trail.specs.Words.{conflict, row_at, trail_in, Laid};

use calculus::{Level, Row};

// What is left of a trail: how many entries, and their greatest level.
#[derive(Clone, Copy)]
pub struct Kept {
    pub count: usize,
    pub top: Level,
}

// All words 0.
pub fn wipe(work: &mut [u64])
    ensures { work.new ≡ replicate (length work.old) 0 }
{
    work.fill(0);
}

// Whether term t is on the trail.
#[tactic(auto, using(crate::proofs::Frames::on_word))]
pub fn present(work: &[u64], w: usize, terms: usize, n: usize, t: Row) -> bool
    requires { Laid w terms work.now n × (t.0 < terms) }
    ensures { result ≡ on (trail_in w terms work.now n) t.0 }
{
    0 < work[terms * w + 2 * terms + t.0 as usize]
}

// The row of the entry at i, the oldest entry being at 0.
pub fn row_at(work: &[u64], w: usize, terms: usize, n: usize, i: usize) -> Row
    requires { Laid w terms work.now n × (i < n) }
    ensures { result.0 ≡ row_at w terms work.now i }
{
    Row(work[terms * w + 3 * terms + i] as u16)
}

// Where the conflict begins.
pub fn conflict_place(w: usize, terms: usize) -> usize
    requires { conflict w terms < 2 ^ 64 }
    ensures { result ≡ conflict w terms }
{
    terms * w + 4 * terms
}

// The value of term t, where it is on the trail.
#[tactic(auto, using(crate::proofs::Frames::value_word))]
pub fn value(work: &[u64], w: usize, terms: usize, n: usize, t: Row) -> u16
    requires { Laid w terms work.now n × (t.0 < terms) }
    ensures { on (trail_in w terms work.now n) t.0 ≡ true → result ≡ value_at (trail_in w terms work.now n) t.0 }
{
    (work[terms * w + t.0 as usize] % 65536) as u16
}

// The level of term t, where it is on the trail.
#[tactic(auto, using(crate::proofs::Frames::level_word))]
pub fn level(work: &[u64], w: usize, terms: usize, n: usize, t: Row) -> Level
    requires { Laid w terms work.now n × (t.0 < terms) }
    ensures { on (trail_in w terms work.now n) t.0 ≡ true → result.0 ≡ level_at (trail_in w terms work.now n) t.0 }
{
    Level(work[terms * w + terms + t.0 as usize])
}

// Whether term t is on the trail as a decision.
#[tactic(auto, using(crate::proofs::Frames::decided_word))]
pub fn decided(work: &[u64], w: usize, terms: usize, n: usize, t: Row) -> bool
    requires { Laid w terms work.now n × (t.0 < terms) }
    ensures { result ≡ decided_at (trail_in w terms work.now n) t.0 }
{
    work[terms * w + 2 * terms + t.0 as usize] == 2
}

// Whether term t is on the trail with value v.
#[tactic(auto, using(crate::proofs::Frames::assigned_word))]
pub fn has_value(work: &[u64], w: usize, terms: usize, n: usize, t: Row, v: u16) -> bool
    requires { Laid w terms work.now n × (t.0 < terms) }
    ensures { result ≡ assigned (trail_in w terms work.now n) t.0 v }
{
    let u = t.0 as usize;
    (0 < work[terms * w + 2 * terms + u]) & ((work[terms * w + u] % 65536) as u16 == v)
}

// The greater of two levels.
pub fn larger(a: Level, b: Level) -> Level
    ensures { result.0 ≡ max a.0 b.0 }
{
    a.max(b)
}

// One level below m; 0 below 0.
pub fn lower(m: Level) -> Level
    ensures { result.0 ≡ m.0 - 1 }
{
    Level(m.0.saturating_sub(1))
}
