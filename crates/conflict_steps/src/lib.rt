// The steps of a conflict: resolve, clear, jump, flip. Each has its number, found by reading alone, and then what it does.
#![tactic(auto)]

ghost use Rattle.std.specs.Prelude.{◌≡◌, ◌<◌, ltb};
ghost use Rattle.calculus.specs.Numbers.{number_in, place_in};
ghost use Rattle.calculus.specs.Sheets.{term_rows};
ghost use Rattle.calculus.specs.Trail.{intersection, level_at, top_level};
ghost use Rattle.calculus.specs.Steps as calculus;
ghost use Rattle.calculus.specs.Steps.{resolve_refusal, clear_refusal, jump_refusal, flip_refusal};
ghost use Rattle.trail.specs.Words.{trail_in};
ghost use Rattle.moves.specs.Post.{conflict_in, rest_level};
ghost use Rattle.state.specs.States.{nowhere, Answers};
ghost use Rattle.conflicts.specs.Conflicts.{Conflicted, Found, Member, Justified, why_in, conflict_level, holds_first_order};

use calculus::{Level, Refusal, Row};
use state::{Answer, Next, Status};

// ---- what the tests share

// Whether row t's level is above that of the rest of the conflict, which is `rest`.
#[tactic(auto, using(crate::proofs::Laws::stands))]
fn above_rest(work: &[u64], w: usize, n: usize, count: usize, t: Row, rest: Level) -> bool
    requires { Member w n work.now count t.0 × (rest.0 ≡ rest_level w n work.now count t.0) }
    ensures { result ≡ ltb (rest_level w n work.now count t.0) (level_at (trail_in w n work.now count) t.0) }
{
    let own = trail::level(work, w, n, count, t);
    rest < own
}

// Whether the conflict's level is above `own`. It is not above `top`, the trail's greatest: at that level the conflict is not read.
#[tactic(auto, using(crate::proofs::Laws::not_above))]
fn conflict_above(work: &[u64], w: usize, n: usize, count: usize, top: Level, own: Level) -> bool
    requires { Found w n work.now count × (top.0 ≡ top_level (trail_in w n work.now count)) }
    ensures { result ≡ ltb own.0 (conflict_level w n work.now count) }
{
    if top <= own {
        return false;
    }
    let m = conflicts::conflict_level(work, w, n, count);
    own < m
}

// Whether the justification of row a, a member of the conflict, holds a first-order decision of the conflict's level. What justifies a is
// not above a's own level: where the conflict is, there is none. A row of level 0 rests on no decision. Neither reads the justification.
#[tactic(auto, using(crate::proofs::Laws::stands, crate::proofs::Laws::why_fits, crate::proofs::Laws::why_there, crate::proofs::Laws::why_within, crate::proofs::Laws::not_higher, crate::proofs::Laws::none_held))]
fn barred(terms: &[u16], work: &[u64], w: usize, n: usize, count: usize, top: Level, a: Row) -> bool
    requires { Justified w n work.now count a.0 × (n ≡ term_rows terms.now) × (top.0 ≡ top_level (trail_in w n work.now count)) }
    ensures { result ≡ holds_first_order w n terms.now work.now count (why_in w n work.now count a.0) }
{
    let own = trail::level(work, w, n, count, a);
    if own == Level(0) {
        return false;
    }
    if conflict_above(work, w, n, count, top, own) {
        return false;
    }
    decisions::holds_first_order(work, w, n, count, terms, a.0 as usize * w, own)
}

// Whether the justifications of rows l and k share a first-order decision of the conflict's level, which is m.
#[tactic(auto, using(crate::proofs::Laws::stands, crate::proofs::Laws::why_fits, crate::proofs::Laws::why_there, crate::proofs::Laws::why_within))]
fn share(
    terms: &[u16],
    work: &[u64],
    w: usize,
    n: usize,
    count: usize,
    l: Row,
    k: Row,
    m: Level,
) -> bool
    requires { Justified w n work.now count l.0 × Justified w n work.now count k.0 × (n ≡ term_rows terms.now)
        × (m.0 ≡ conflict_level w n work.now count) }
    ensures { result ≡ holds_first_order w n terms.now work.now count
        (intersection (why_in w n work.now count l.0) (why_in w n work.now count k.0)) }
{
    decisions::share_first_order(
        work,
        w,
        n,
        count,
        terms,
        l.0 as usize * w,
        k.0 as usize * w,
        m,
    )
}

// ---- the numbers

// Numbers 17, 18, 19; `top` is the trail's greatest level.
#[tactic(auto, unfolding(calculus::specs::Steps::resolve_refusal, calculus::specs::Numbers::unless))]
fn resolve_refusal(
    terms: &[u16],
    work: &[u64],
    w: usize,
    n: usize,
    count: usize,
    top: Level,
    a: Row,
) -> Result<(), Refusal>
    requires { Found w n work.now count × (n ≡ term_rows terms.now) × (top.0 ≡ top_level (trail_in w n work.now count)) × (a.0 < n) }
    ensures number { number_in result ≡ resolve_refusal terms.now (trail_in w n work.now count) (conflict_in w n work.now) a.0 }
    ensures place { place_in result ≡ 0 }
{
    if !conflicts::in_conflict(work, w, n, a) {
        return Err(Refusal::NoMember);
    }
    if trail::decided(work, w, n, count, a) {
        return Err(Refusal::Decision);
    }
    if barred(terms, work, w, n, count, top, a) {
        return Err(Refusal::Barred);
    }
    Ok(())
}

// Numbers 17, 20, 21.
#[tactic(auto, unfolding(calculus::specs::Steps::clear_refusal, calculus::specs::Numbers::unless))]
fn clear_refusal(
    terms: &[u16],
    work: &[u64],
    w: usize,
    n: usize,
    count: usize,
    a: Row,
) -> Result<(), Refusal>
    requires { Found w n work.now count × (n ≡ term_rows terms.now) × (a.0 < n) }
    ensures number { number_in result ≡ clear_refusal terms.now (trail_in w n work.now count) (conflict_in w n work.now) a.0 }
    ensures place { place_in result ≡ 0 }
{
    if !conflicts::in_conflict(work, w, n, a) {
        return Err(Refusal::NoMember);
    }
    let decided = trail::decided(work, w, n, count, a);
    let p = state::is_prop(terms, a);
    if !(decided & !p) {
        return Err(Refusal::OtherDecision);
    }
    let rest = conflicts::rest_level(work, w, n, count, a);
    if !above_rest(work, w, n, count, a, rest) {
        return Err(Refusal::Level);
    }
    Ok(())
}

// Numbers 17, 22, 21; m is the level of the rest of the conflict.
#[tactic(auto, unfolding(calculus::specs::Steps::jump_refusal, calculus::specs::Numbers::unless))]
fn jump_refusal(
    terms: &[u16],
    work: &[u64],
    w: usize,
    n: usize,
    count: usize,
    l: Row,
    m: Level,
) -> Result<(), Refusal>
    requires { Found w n work.now count × (n ≡ term_rows terms.now) × (l.0 < n) × (m.0 ≡ rest_level w n work.now count l.0) }
    ensures number { number_in result ≡ jump_refusal terms.now (trail_in w n work.now count) (conflict_in w n work.now) l.0 }
    ensures place { place_in result ≡ 0 }
{
    if !conflicts::in_conflict(work, w, n, l) {
        return Err(Refusal::NoMember);
    }
    if !state::is_prop(terms, l) {
        return Err(Refusal::Unsuited);
    }
    if !above_rest(work, w, n, count, l, m) {
        return Err(Refusal::Level);
    }
    Ok(())
}

// Numbers 17, 22, 18, 23; m is the level of the conflict.
#[tactic(auto, unfolding(calculus::specs::Steps::flip_refusal, calculus::specs::Numbers::unless))]
fn flip_refusal(
    terms: &[u16],
    work: &[u64],
    w: usize,
    n: usize,
    count: usize,
    l: Row,
    k: Row,
    m: Level,
) -> Result<(), Refusal>
    requires { Found w n work.now count × (n ≡ term_rows terms.now) × (l.0 < n) × (k.0 < n) × (m.0 ≡ conflict_level w n work.now count) }
    ensures number { number_in result ≡ flip_refusal terms.now (trail_in w n work.now count) (conflict_in w n work.now) l.0 k.0 }
    ensures place { place_in result ≡ 0 }
{
    if !conflicts::in_conflict(work, w, n, l) {
        return Err(Refusal::NoMember);
    }
    if !conflicts::in_conflict(work, w, n, k) {
        return Err(Refusal::NoMember);
    }
    if !state::is_prop(terms, l) {
        return Err(Refusal::Unsuited);
    }
    if trail::decided(work, w, n, count, l) {
        return Err(Refusal::Decision);
    }
    if trail::decided(work, w, n, count, k) {
        return Err(Refusal::Decision);
    }
    if l == k {
        return Err(Refusal::NotShared);
    }
    if !share(terms, work, w, n, count, l, k, m) {
        return Err(Refusal::NotShared);
    }
    Ok(())
}

// ---- the steps

// In the conflict, a's justification takes the place of a.
#[tactic(auto, using(state::proofs::States::refused_with), unfolding(calculus::specs::Steps::resolve, calculus::specs::Steps::answer, state::specs::States::state_in, state::specs::States::Answers))]
pub fn resolve(terms: &[u16], work: &mut [u64], w: usize, n: usize, st: Status, a: Row) -> Answer
    requires { Conflicted w n terms.now work.old st a.0 }
    ensures { Answers w n terms.now work.old work.new nowhere
        (calculus.resolve terms.now (trail_in w n work.old st.count) (conflict_in w n work.old) a.0) result }
{
    let count = st.count;
    let top = st.top;
    resolve_refusal(terms, work, w, n, count, top, a)?;
    conflict_moves::resolve(work, w, n, count, a);
    Ok(Next::On(Status {
        count,
        top,
        conflict: true,
    }))
}

// The decision a is undone, with all of its level and above.
#[tactic(auto, using(state::proofs::States::refused_with), unfolding(calculus::specs::Steps::clear, calculus::specs::Steps::answer, state::specs::States::state_in, state::specs::States::Answers))]
pub fn clear(terms: &[u16], work: &mut [u64], w: usize, n: usize, st: Status, a: Row) -> Answer
    requires { Conflicted w n terms.now work.old st a.0 }
    ensures { Answers w n terms.now work.old work.new nowhere
        (calculus.clear terms.now (trail_in w n work.old st.count) (conflict_in w n work.old) a.0) result }
{
    let count = st.count;
    clear_refusal(terms, work, w, n, count, a)?;
    conflicts::searching(conflict_moves::clear(work, w, n, count, a))
}

// Back to the level of the rest of the conflict, which justifies the opposite of l.
#[tactic(auto, using(state::proofs::States::refused_with), unfolding(calculus::specs::Steps::jump, calculus::specs::Steps::answer, state::specs::States::state_in, state::specs::States::Answers))]
pub fn jump(terms: &[u16], work: &mut [u64], w: usize, n: usize, st: Status, l: Row) -> Answer
    requires { Conflicted w n terms.now work.old st l.0 }
    ensures { Answers w n terms.now work.old work.new nowhere
        (calculus.jump terms.now (trail_in w n work.old st.count) (conflict_in w n work.old) l.0) result }
{
    let count = st.count;
    let m = conflicts::rest_level(work, w, n, count, l);
    jump_refusal(terms, work, w, n, count, l, m)?;
    conflicts::searching(conflict_moves::jump(work, w, n, count, l, m))
}

// Below the level of the conflict, the opposite of l is decided.
#[tactic(auto, using(state::proofs::States::refused_with), unfolding(calculus::specs::Steps::flip, calculus::specs::Steps::answer, state::specs::States::state_in, state::specs::States::Answers))]
pub fn flip(
    terms: &[u16],
    work: &mut [u64],
    w: usize,
    n: usize,
    st: Status,
    l: Row,
    k: Row,
) -> Answer
    requires { Conflicted w n terms.now work.old st l.0 × (k.0 < n) }
    ensures { Answers w n terms.now work.old work.new nowhere
        (calculus.flip terms.now (trail_in w n work.old st.count) (conflict_in w n work.old) l.0 k.0) result }
{
    let count = st.count;
    let m = conflicts::conflict_level(work, w, n, count);
    flip_refusal(terms, work, w, n, count, l, k, m)?;
    conflicts::searching(conflict_moves::flip(work, w, n, count, l, m))
}
