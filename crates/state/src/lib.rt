// Where a run stands, what a step answers, and look-ups on the trail, which any number may be asked of but for a level.
#![tactic(auto)]

ghost use Rattle.std.specs.Prelude.{◌≡◌, true, ◌<◌};
ghost use Rattle.calculus.specs.Sheets.{term_rows};
ghost use Rattle.calculus.specs.Terms.{prop};
ghost use Rattle.calculus.specs.Trail.{on, value_at, level_at, assigned};
ghost use Rattle.trail.specs.Words.{trail_in, Laid};

use calculus::{Level, Refusal, Row};
use rows::BLANK;

// How many entries the trail has, its greatest level, and whether there is a conflict.
#[derive(Clone, Copy)]
pub struct Status {
    pub count: usize,
    pub top: Level,
    pub conflict: bool,
}

// Where an allowed step leads: the run goes on from a status, or the input is refuted.
#[derive(Clone, Copy)]
pub enum Next {
    On(Status),
    Refuted,
}

// What a step answers: where it leads, or why it is refused.
pub type Answer = Result<Next, Refusal>;

// Whether t is a row whose term stands on the trail.
#[tactic(auto, using(crate::proofs::States::below_off))]
pub fn stands(work: &[u64], w: usize, n: usize, count: usize, t: Row) -> bool
    requires { Laid w n work.now count }
    ensures { result ≡ on (trail_in w n work.now count) t.0 }
{
    (t.0 as usize) < n && trail::present(work, w, n, count, t)
}

// The value of t, where it stands on the trail.
#[tactic(auto, using(crate::proofs::States::below_off, calculus::proofs::Trails::on_below))]
pub fn value_at(work: &[u64], w: usize, n: usize, count: usize, t: Row) -> u16
    requires { Laid w n work.now count }
    ensures { on (trail_in w n work.now count) t.0 ≡ true → result ≡ value_at (trail_in w n work.now count) t.0 }
{
    if (t.0 as usize) < n {
        return trail::value(work, w, n, count, t);
    }
    BLANK
}

// The level of t, which stands on the trail.
#[tactic(auto, using(calculus::proofs::Trails::on_below))]
pub fn level_at(work: &[u64], w: usize, n: usize, count: usize, t: Row) -> Level
    requires { Laid w n work.now count × (on (trail_in w n work.now count) t.0 ≡ true) }
    ensures { result.0 ≡ level_at (trail_in w n work.now count) t.0 }
{
    trail::level(work, w, n, count, t)
}

// Whether t stands on the trail with value v.
#[tactic(auto, using(crate::proofs::States::below_off))]
pub fn has_value(work: &[u64], w: usize, n: usize, count: usize, t: Row, v: u16) -> bool
    requires { Laid w n work.now count }
    ensures { result ≡ assigned (trail_in w n work.now count) t.0 v }
{
    (t.0 as usize) < n && trail::has_value(work, w, n, count, t, v)
}

// Whether t, a row of the term sheet, is of sort prop.
pub fn is_prop(terms: &[u16], t: Row) -> bool
    requires { t.0 < term_rows terms.now }
    ensures { result ≡ prop terms.now t.0 }
{
    terms[t.0 as usize * 6 + 1] == 0
}
