// The conflict in the workspace, as the tests of its steps find it: its members, its level, the level of the rest; and the status after it.
#![tactic(auto)]

ghost use Rattle.std.specs.Prelude.{◌≡◌, true, ◌+◌, ◌*◌, ◌<◌, ◌≤◌, ltb, length};
ghost use Rattle.calculus.specs.Lists.{all};
ghost use Rattle.calculus.specs.Terms.{filled};
ghost use Rattle.calculus.specs.Trail.{level_of};
ghost use Rattle.trail.specs.Words as words;
ghost use Rattle.trail.specs.Words.{trail_in};
ghost use Rattle.moves.specs.Post.{conflict_in, rest_level};
ghost use Rattle.conflict_moves.specs.Back.{rest_in};
ghost use Rattle.conflicts.specs.Conflicts.{Found, conflict_level, in_search};

use calculus::{Level, Row};
use rows::BLANK;
use state::{Answer, Next, Status};
use trail::Kept;

// Whether row t is in the conflict.
pub fn in_conflict(work: &[u64], w: usize, n: usize, t: Row) -> bool
    requires { (words.conflict w n + w ≤ length work.now) × (n ≤ 64 * w) × (t.0 < n) }
    ensures { result ≡ conflict_in w n work.now t.0 }
{
    let e = trail::conflict_place(w, n);
    bitset::member(work, e, w, t)
}

// The conflict's level.
pub fn conflict_level(work: &[u64], w: usize, n: usize, count: usize) -> Level
    requires { Found w n work.now count }
    ensures { result.0 ≡ conflict_level w n work.now count }
{
    let e = trail::conflict_place(w, n);
    levels::level_of(work, w, n, count, e)
}

// The level of the conflict without row t.
pub fn rest_level(work: &[u64], w: usize, n: usize, count: usize, t: Row) -> Level
    requires { Found w n work.now count }
    ensures { result.0 ≡ rest_level w n work.now count t.0 }
{
    let e = trail::conflict_place(w, n);
    levels::level_without(work, w, n, count, e, t)
}

// Whether every row in ps, before the first blank, is in the conflict.
pub fn all_in_conflict(work: &[u64], w: usize, n: usize, ps: &[u16]) -> bool
    requires { (words.conflict w n + w ≤ length work.now) × (n ≤ 64 * w) × (all (λ p. ltb p n) (filled ps.now) ≡ true) }
    ensures { result ≡ all (conflict_in w n work.now) (filled ps.now) }
{
    for &p in ps {
        if p == BLANK {
            return true;
        }
        if !in_conflict(work, w, n, Row(p)) {
            return false;
        }
    }
    true
}

// The level of the conflict without the rows in ps before the first blank.
pub fn level_of_rest(work: &[u64], w: usize, n: usize, count: usize, ps: &[u16]) -> Level
    requires { Found w n work.now count }
    ensures { result.0 ≡ level_of (trail_in w n work.now count) (rest_in w n work.now ps.now) }
{
    let e = trail::conflict_place(w, n);
    levels::level_without_all(work, w, n, count, e, ps)
}

// The search goes on from the trail that is left.
pub fn searching(kept: Kept) -> Answer
    ensures { result ≡ Ok (Next.On (in_search kept.count kept.top)) }
{
    Ok(Next::On(Status {
        count: kept.count,
        top: kept.top,
        conflict: false,
    }))
}
