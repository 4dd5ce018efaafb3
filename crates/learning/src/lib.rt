// The step learn: its number, found by reading alone, and then what it does.
#![tactic(auto)]

ghost use Rattle.std.specs.Prelude.{◌≡◌, ◌&&◌, leb, ltb};
ghost use Rattle.calculus.specs.Numbers.{number_in, place_in};
ghost use Rattle.calculus.specs.Lists.{all, has};
ghost use Rattle.calculus.specs.Terms.{prop};
ghost use Rattle.calculus.specs.Clauses.{different, is_clause, clausal};
ghost use Rattle.calculus.specs.Trail.{level_of, premises_at};
ghost use Rattle.calculus.specs.Steps.{premise_cells, premises, learn_refusal, learn};
ghost use Rattle.trail.specs.Words.{trail_in};
ghost use Rattle.premises.specs.Columns.{Premised};
ghost use Rattle.moves.specs.Post.{conflict_in};
ghost use Rattle.state.specs.States.{nowhere, Answers};
ghost use Rattle.clauses.specs.Pairs.{members_of};
ghost use Rattle.learning.specs.Learns.{Named, ToTest, ToLearn};

use calculus::{Level, Refusal, Row, Step};
use clauses::Members;
use state::{Answer, Status};

// The row's members with their values, where all stand on the trail.
#[tactic(auto, using(crate::proofs::Laws::four_members))]
fn members(work: &[u64], w: usize, n: usize, count: usize, x: Step) -> Members
    requires { Named w n work.now count x }
    ensures { members_of result ≡ premises_at (trail_in w n work.now count) (premises x) }
{
    Members {
        p: premises::premise(work, w, n, count, x.p),
        q: premises::premise(work, w, n, count, x.q),
        r: premises::premise(work, w, n, count, x.r),
        s: premises::premise(work, w, n, count, x.s),
    }
}

// ---- the tests; ps are the row's columns of members

// Whether the members are props and the term is a clause.
#[tactic(auto, using(crate::proofs::Laws::columns))]
fn kinds_suit(terms: &[u16], x: Step, ps: &[u16]) -> bool
    requires { ps.now ≡ premise_cells x }
    ensures { result ≡ (all (prop terms.now) (premises x) && is_clause terms.now x.term) }
{
    let p = clauses::all_props(terms, ps);
    let c = clauses::is_clause(terms, Row(x.term));
    p & c
}

// Whether the members, which all stand on the trail, are different and the term is a clausal form of them.
#[tactic(auto, using(crate::proofs::Laws::columns))]
fn form_suits(
    terms: &[u16],
    work: &[u64],
    w: usize,
    n: usize,
    count: usize,
    x: Step,
    ps: &[u16],
) -> bool
    requires { Named w n work.now count x × (ps.now ≡ premise_cells x) }
    ensures { result ≡ (different (premises x)
        && clausal terms.now x.term (premises_at (trail_in w n work.now count) (premises x))) }
{
    let d = clauses::different(ps);
    let h = members(work, w, n, count, x);
    let c = clauses::clausal(terms, Row(x.term), h);
    d & c
}

// Whether the row's level is at least `rest` and below that of the members, which all stand on the trail.
fn level_suits(work: &[u64], w: usize, n: usize, count: usize, x: Step, rest: Level) -> bool
    requires { Premised w n work.now count x }
    ensures { result ≡ (leb rest.0 x.value && ltb x.value (level_of (trail_in w n work.now count) (has (premises x)))) }
{
    let h = premises::level(work, w, n, count, x);
    let m = Level(x.value as u64);
    (rest <= m) & (m < h)
}

// ---- the number

// Numbers 17, 22, 25, 14, 21; `rest` is the level of the rest of the conflict.
#[tactic(auto, using(crate::proofs::Laws::columns, crate::proofs::Laws::members_stand), unfolding(calculus::specs::Steps::learn_refusal, calculus::specs::Numbers::unless))]
fn learn_refusal(
    terms: &[u16],
    work: &[u64],
    w: usize,
    n: usize,
    count: usize,
    x: Step,
    ps: &[u16],
    rest: Level,
) -> Result<(), Refusal>
    requires { ToTest w n work.now count x ps.now rest.0 }
    ensures number { number_in result ≡ learn_refusal terms.now (trail_in w n work.now count) (conflict_in w n work.now)
        x.term x.value (premises x) }
    ensures place { place_in result ≡ 0 }
{
    if !conflicts::all_in_conflict(work, w, n, ps) {
        return Err(Refusal::NoMember);
    }
    if !kinds_suit(terms, x, ps) {
        return Err(Refusal::Unsuited);
    }
    if !form_suits(terms, work, w, n, count, x, ps) {
        return Err(Refusal::NoForm);
    }
    if state::stands(work, w, n, count, Row(x.term)) {
        return Err(Refusal::There);
    }
    if !level_suits(work, w, n, count, x, rest) {
        return Err(Refusal::Level);
    }
    Ok(())
}

// ---- the step

// Back to the row's level, where the rest of the conflict justifies the clause.
#[tactic(auto, using(state::proofs::States::refused_with), unfolding(calculus::specs::Steps::learn, calculus::specs::Steps::premises, calculus::specs::Steps::answer, state::specs::States::state_in, state::specs::States::Answers))]
pub fn learn(terms: &[u16], work: &mut [u64], w: usize, n: usize, st: Status, x: Step) -> Answer
    requires { ToLearn w n terms.now work.old st x }
    ensures { Answers w n terms.now work.old work.new nowhere
        (learn terms.now (trail_in w n work.old st.count) (conflict_in w n work.old)
        x.term x.value (premises x)) result }
{
    let count = st.count;
    let ps = [x.p, x.q, x.r, x.s, x.t];
    let rest = conflicts::level_of_rest(work, w, n, count, &ps);
    learn_refusal(terms, work, w, n, count, x, &ps, rest)?;
    let t = Row(x.term);
    let v = clauses::value(terms, t);
    let m = Level(x.value as u64);
    conflicts::searching(conflict_moves::backjump(work, w, n, count, t, v, m, &ps, rest))
}
