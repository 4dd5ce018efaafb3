// The steps of the search: decide, deduce, clash, fail. Each has its number, found by reading alone, and then what it does.
#![tactic(auto)]

ghost use Rattle.std.specs.Prelude.{◌≡◌, true, ◌<◌};
ghost use Rattle.calculus.specs.Sheets.{term_rows};
ghost use Rattle.calculus.specs.Inputs.{value_suits};
ghost use Rattle.calculus.specs.Trail.{on, level_of};
ghost use Rattle.calculus.specs.Steps.{premises, clash_set, decide_refusal, inference_refusal, deduce_refusal};
ghost use Rattle.calculus.specs.Steps.{contradiction_refusal, clash_refusal, fail_refusal, decide, deduce, clash, fail, searching, step_by};
ghost use Rattle.trail.specs.Words.{trail_in, Laid};
ghost use Rattle.calculus.specs.Place.{place_of};
ghost use Rattle.state.specs.States.{nowhere, Answers};
ghost use Rattle.premises.specs.Columns.{Premised};
ghost use Rattle.acceptance.specs.Added.{Decidable};
ghost use Rattle.search_steps.specs.Searches.{Searching, Inferring, Inferred, Inference, Passed, Refuses};

use calculus::{Kind, Level, Refusal, Row, Rule, Step};
use state::{Answer, Next, Status};

// ---- what the tests share

// Whether v is a value for term row t: for a prop, 0 or 1.
fn value_suits(terms: &[u16], t: Row, v: u16) -> bool
    requires { t.0 < term_rows terms.now }
    ensures { result ≡ value_suits terms.now t.0 v }
{
    let p = state::is_prop(terms, t);
    !p | (v <= 1)
}

// The level of the premises and the term, where all stand on the trail.
#[tactic(auto, using(crate::proofs::Laws::clash_level_is))]
fn clash_level(work: &[u64], w: usize, n: usize, count: usize, x: Step) -> Level
    requires { Premised w n work.now count x × (on (trail_in w n work.now count) x.term ≡ true) }
    ensures { result.0 ≡ level_of (trail_in w n work.now count) (clash_set x.term (premises x)) }
{
    let l = state::level_at(work, w, n, count, Row(x.term));
    let p = premises::level(work, w, n, count, x);
    l.max(p)
}

// ---- the numbers

// Numbers 22, 14 and 27.
#[tactic(auto, unfolding(calculus::specs::Steps::decide_refusal, calculus::specs::Numbers::unless))]
fn decide_refusal(
    terms: &[u16],
    work: &[u64],
    w: usize,
    n: usize,
    count: usize,
    t: Row,
    v: u16,
) -> Result<(), Refusal>
    requires { Decidable w n terms.now work.now count t.0 }
    ensures { Refuses nowhere (decide_refusal terms.now (trail_in w n work.now count) t.0 v) result }
{
    if !value_suits(terms, t, v) {
        return Err(Refusal::Unsuited);
    }
    if state::stands(work, w, n, count, t) {
        return Err(Refusal::There);
    }
    if !acceptance::acceptable(terms, work, w, n, count, t, v) {
        return Err(Refusal::Unacceptable);
    }
    Ok(())
}

// Numbers 22, 12, 13, which deduce, clash and fail share, with their places.
#[tactic(auto, using(crate::proofs::Laws::to_test), unfolding(calculus::specs::Steps::inference_refusal, calculus::specs::Numbers::unless, calculus::specs::Place::place_of))]
fn inference_refusal(
    terms: &[u16],
    work: &[u64],
    w: usize,
    n: usize,
    count: usize,
    x: Step,
) -> Result<(), Refusal>
    requires { Inferred w n terms.now work.now count x }
    ensures { Refuses (place_of terms.now (trail_in w n work.now count) x)
        (inference_refusal terms.now (trail_in w n work.now count) x.rule x.term x.value (premises x) 0) result }
{
    if !state::is_prop(terms, Row(x.term)) {
        return Err(Refusal::Unsuited);
    }
    if !premises::all_on(work, w, n, count, x) {
        return Err(Refusal::Absent(premises::absent_place(work, w, n, count, x)));
    }
    let claim = premises::claim(work, w, n, count, x);
    places::test(terms, n, Rule::from(x.rule), claim)
}

// Numbers 14, 15 of deduce, whose first tests are passed.
#[tactic(auto, using(crate::proofs::Laws::passed_rest), unfolding(calculus::specs::Steps::deduce_refusal, calculus::specs::Numbers::unless, calculus::specs::Place::place_of))]
fn deduce_refusal(
    terms: &[u16],
    work: &[u64],
    w: usize,
    n: usize,
    count: usize,
    x: Step,
) -> Result<(), Refusal>
    requires { Laid w n work.now count × Passed terms.now (trail_in w n work.now count) x }
    ensures { Refuses (place_of terms.now (trail_in w n work.now count) x)
        (deduce_refusal terms.now (trail_in w n work.now count) x.rule x.term x.value (premises x)) result }
{
    if !state::stands(work, w, n, count, Row(x.term)) {
        return Ok(());
    }
    if state::has_value(work, w, n, count, Row(x.term), x.value) {
        return Err(Refusal::There);
    }
    Err(Refusal::OppositeThere)
}

// Number 16, which clash and fail share.
#[tactic(auto, using(crate::proofs::Laws::passed_rest), unfolding(calculus::specs::Steps::contradiction_refusal, calculus::specs::Numbers::unless, calculus::specs::Place::place_of))]
fn contradiction_refusal(
    terms: &[u16],
    work: &[u64],
    w: usize,
    n: usize,
    count: usize,
    x: Step,
) -> Result<(), Refusal>
    requires { Laid w n work.now count × Passed terms.now (trail_in w n work.now count) x }
    ensures { Refuses (place_of terms.now (trail_in w n work.now count) x)
        (contradiction_refusal terms.now (trail_in w n work.now count) x.rule x.term x.value (premises x) true) result }
{
    if !state::has_value(work, w, n, count, Row(x.term), moves::other(x.value)) {
        return Err(Refusal::OppositeMissing);
    }
    Ok(())
}

// Numbers 16, and 26 at level 0.
#[tactic(auto, using(crate::proofs::Laws::passed_on, crate::proofs::Laws::contradiction_first, crate::proofs::Laws::contradiction_level, crate::proofs::Laws::contradiction_on, crate::proofs::Laws::no_place), unfolding(calculus::specs::Steps::clash_refusal, calculus::specs::Numbers::unless))]
fn clash_refusal(
    terms: &[u16],
    work: &[u64],
    w: usize,
    n: usize,
    count: usize,
    x: Step,
) -> Result<(), Refusal>
    requires { Laid w n work.now count × Passed terms.now (trail_in w n work.now count) x }
    ensures { Refuses (place_of terms.now (trail_in w n work.now count) x)
        (clash_refusal terms.now (trail_in w n work.now count) x.rule x.term x.value (premises x)) result }
{
    contradiction_refusal(terms, work, w, n, count, x)?;
    let level = clash_level(work, w, n, count, x);
    if level == Level(0) {
        return Err(Refusal::OtherLine);
    }
    Ok(())
}

// Numbers 16, and 26 above level 0.
#[tactic(auto, using(crate::proofs::Laws::passed_on, crate::proofs::Laws::contradiction_first, crate::proofs::Laws::contradiction_level, crate::proofs::Laws::contradiction_on, crate::proofs::Laws::no_place), unfolding(calculus::specs::Steps::fail_refusal, calculus::specs::Numbers::unless))]
fn fail_refusal(
    terms: &[u16],
    work: &[u64],
    w: usize,
    n: usize,
    count: usize,
    x: Step,
) -> Result<(), Refusal>
    requires { Laid w n work.now count × Passed terms.now (trail_in w n work.now count) x }
    ensures { Refuses (place_of terms.now (trail_in w n work.now count) x)
        (fail_refusal terms.now (trail_in w n work.now count) x.rule x.term x.value (premises x)) result }
{
    contradiction_refusal(terms, work, w, n, count, x)?;
    let level = clash_level(work, w, n, count, x);
    if level != Level(0) {
        return Err(Refusal::OtherLine);
    }
    Ok(())
}

// ---- the steps

// decide: the term with its value as a decision.
#[tactic(auto, using(crate::proofs::Laws::decide_off, crate::proofs::Laws::top_small, state::proofs::States::refused_with), unfolding(calculus::specs::Steps::decide, calculus::specs::Steps::answer, state::specs::States::state_in, state::specs::States::Answers))]
pub fn decide(
    terms: &[u16],
    work: &mut [u64],
    w: usize,
    n: usize,
    st: Status,
    t: Row,
    v: u16,
) -> Answer
    requires { Searching w n terms.now work.old st t.0 }
    ensures { Answers w n terms.now work.old work.new nowhere
        (decide terms.now (trail_in w n work.old st.count) t.0 v) result }
{
    decide_refusal(terms, work, w, n, st.count, t, v)?;
    let kept = moves::decide(work, w, n, st.count, st.top, t, v);
    Ok(Next::On(Status {
        count: kept.count,
        top: kept.top,
        conflict: false,
    }))
}

// deduce: the premises justify the term's value.
#[tactic(auto, using(crate::proofs::Laws::passed_on, crate::proofs::Laws::passed_rest, crate::proofs::Laws::deduce_stands, state::proofs::States::refused_with), unfolding(calculus::specs::Steps::deduce, calculus::specs::Steps::deduce_refusal, calculus::specs::Steps::premises, calculus::specs::Numbers::unless, calculus::specs::Steps::answer, state::specs::States::state_in, state::specs::States::Answers))]
fn deduce(terms: &[u16], work: &mut [u64], w: usize, n: usize, st: Status, x: Step) -> Answer
    requires { Inferring w n terms.now work.old st x × Passed terms.now (trail_in w n work.old st.count) x }
    ensures { Answers w n terms.now work.old work.new
        (place_of terms.now (trail_in w n work.old st.count) x)
        (deduce terms.now (trail_in w n work.old st.count) x.rule x.term x.value (premises x)) result }
{
    deduce_refusal(terms, work, w, n, st.count, x)?;
    let level = premises::level(work, w, n, st.count, x);
    let ps = [x.p, x.q, x.r, x.s, x.t];
    let kept = moves::propagate(
        work,
        w,
        n,
        st.count,
        st.top,
        Row(x.term),
        x.value,
        &ps,
        level,
    );
    Ok(Next::On(Status {
        count: kept.count,
        top: kept.top,
        conflict: false,
    }))
}

// clash: premises and opposite, not all at level 0, are the conflict.
#[tactic(auto, using(crate::proofs::Laws::contradiction_stands, state::proofs::States::refused_with), unfolding(calculus::specs::Steps::clash, calculus::specs::Steps::clash_refusal, calculus::specs::Steps::premises, calculus::specs::Steps::answer, state::specs::States::state_in, state::specs::States::Answers))]
fn clash(terms: &[u16], work: &mut [u64], w: usize, n: usize, st: Status, x: Step) -> Answer
    requires { Inferring w n terms.now work.old st x × Passed terms.now (trail_in w n work.old st.count) x }
    ensures { Answers w n terms.now work.old work.new
        (place_of terms.now (trail_in w n work.old st.count) x)
        (clash terms.now (trail_in w n work.old st.count) x.rule x.term x.value (premises x)) result }
{
    clash_refusal(terms, work, w, n, st.count, x)?;
    let ps = [x.p, x.q, x.r, x.s, x.t];
    moves::conflict(work, w, n, st.count, Row(x.term), &ps);
    Ok(Next::On(Status {
        conflict: true,
        ..st
    }))
}

// fail: premises and opposite, all at level 0, refute the input. Nothing is written.
#[tactic(auto, using(state::proofs::States::refused_with), unfolding(calculus::specs::Steps::fail, calculus::specs::Steps::answer, state::specs::States::state_in, state::specs::States::Answers))]
fn fail(terms: &[u16], work: &[u64], w: usize, n: usize, st: Status, x: Step) -> Answer
    requires { Inferring w n terms.now work.now st x × Passed terms.now (trail_in w n work.now st.count) x }
    ensures { Answers w n terms.now work.now work.now
        (place_of terms.now (trail_in w n work.now st.count) x)
        (fail terms.now (trail_in w n work.now st.count) x.rule x.term x.value (premises x)) result }
{
    fail_refusal(terms, work, w, n, st.count, x)?;
    Ok(Next::Refuted)
}

// deduce, clash or fail, by the kind k of the row: the tests that they share, then the step.
#[tactic(auto, using(crate::proofs::Laws::infer_refused), unfolding(calculus::specs::Steps::step_by, state::specs::States::Answers))]
pub fn infer(
    terms: &[u16],
    work: &mut [u64],
    w: usize,
    n: usize,
    st: Status,
    x: Step,
    k: Kind,
) -> Answer
    requires { Inferring w n terms.now work.old st x × Inference k }
    ensures { Answers w n terms.now work.old work.new
        (place_of terms.now (trail_in w n work.old st.count) x)
        (step_by terms.now k (searching (trail_in w n work.old st.count)) x) result }
{
    inference_refusal(terms, work, w, n, st.count, x)?;
    match k {
        Kind::Deduce => deduce(terms, work, w, n, st, x),
        Kind::Clash => clash(terms, work, w, n, st, x),
        _ => fail(terms, work, w, n, st, x),
    }
}
