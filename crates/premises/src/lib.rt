// The premise columns of a step row, before the first blank: whether they stand on the trail, their level, and their values there.
#![tactic(auto)]

ghost use Rattle.std.specs.Prelude.{◌≡◌};
ghost use Rattle.calculus.specs.Lists.{all, has};
ghost use Rattle.calculus.specs.Trail.{on, value_at, level_of};
ghost use Rattle.calculus.specs.Steps.{premises};
ghost use Rattle.rule_claims.specs.Claims.{Looked};
ghost use Rattle.trail.specs.Words.{trail_in, Laid};
ghost use Rattle.calculus.specs.Place.{absent_place};
ghost use Rattle.premises.specs.Columns.{Premised, Claims};

use calculus::{Level, Premise, Row, Step};
use rows::BLANK;
use rule_claims::Claim;

// Whether every premise stands on the trail.
pub fn all_on(work: &[u64], w: usize, n: usize, count: usize, x: Step) -> bool
    requires { Laid w n work.now count }
    ensures { result ≡ all (on (trail_in w n work.now count)) (premises x) }
{
    for p in [x.p, x.q, x.r, x.s, x.t] {
        if p == BLANK {
            return true;
        }
        if !state::stands(work, w, n, count, Row(p)) {
            return false;
        }
    }
    true
}

// The column of the first premise that is not on the trail.
pub fn absent_place(work: &[u64], w: usize, n: usize, count: usize, x: Step) -> u16
    requires { Laid w n work.now count }
    ensures { result ≡ absent_place (trail_in w n work.now count) x }
{
    let ps = [x.p, x.q, x.r, x.s, x.t];
    for (k, &p) in ps.iter().enumerate() {
        if !((p == BLANK) | state::stands(work, w, n, count, Row(p))) {
            return 5 + k as u16;
        }
    }
    10
}

// The level of the premises as a set, where all stand on the trail.
pub fn level(work: &[u64], w: usize, n: usize, count: usize, x: Step) -> Level
    requires { Premised w n work.now count x }
    ensures { result.0 ≡ level_of (trail_in w n work.now count) (has (premises x)) }
{
    let mut m = Level(0);
    for p in [x.p, x.q, x.r, x.s, x.t] {
        if p == BLANK {
            return m;
        }
        m = trail::larger(m, state::level_at(work, w, n, count, Row(p)));
    }
    m
}

// A premise column with its value, where it stands on the trail.
pub fn premise(work: &[u64], w: usize, n: usize, count: usize, p: u16) -> Premise
    requires { Laid w n work.now count }
    ensures { (result.row ≡ p) × Looked (on (trail_in w n work.now count)) (value_at (trail_in w n work.now count)) result }
{
    Premise {
        row: p,
        value: state::value_at(work, w, n, count, Row(p)),
    }
}

// What the row claims: its term, its value, and its premises, which all stand on the trail, with their values there.
pub fn claim(work: &[u64], w: usize, n: usize, count: usize, x: Step) -> Claim
    requires { Premised w n work.now count x }
    ensures { Claims (trail_in w n work.now count) x result }
{
    Claim {
        term: Row(x.term),
        value: x.value,
        p: premise(work, w, n, count, x.p),
        q: premise(work, w, n, count, x.q),
        r: premise(work, w, n, count, x.r),
        s: premise(work, w, n, count, x.s),
        t: premise(work, w, n, count, x.t),
    }
}
