// What the allowed steps of a conflict do to the trail and the conflict in the workspace: resolve, clear, jump, learn, flip.
// Whether a step is allowed is tested before.
#![tactic(auto)]

ghost use Rattle.trail.specs.Words.{trail_in};
ghost use Rattle.moves.specs.Post.{jumped_in, flipped_in, Stands, Conflicts};
ghost use Rattle.conflict_moves.specs.Back.{resolved_in, cleared_in, backjumped_in, ToResolve, ToClear, ToBackjump, ToJump, ToFlip};

use calculus::{Level, Row};
use trail::Kept;

// resolve: the conflict loses a, which is justified, and takes in its justification.
pub fn resolve(work: &mut [u64], w: usize, terms: usize, n: usize, a: Row)
    requires { ToResolve w terms work.old n a.0 }
    ensures { Conflicts w terms work.new n (trail_in w terms work.old n) (resolved_in w terms work.old n a.0) }
{
    let e = trail::conflict_place(w, terms);
    // The justification, which does not hold a, comes first: a word just written is not read again as part of a longer one.
    bitset::union_into(work, e, a.0 as usize * w, w);
    bitset::remove(work, e, w, a);
}

// clear: the trail kept below the level of a, which is on it.
pub fn clear(work: &mut [u64], w: usize, terms: usize, n: usize, a: Row) -> Kept
    requires { ToClear w terms work.old n a.0 }
    ensures { Stands w terms work.new result.count result.top.0 (cleared_in w terms work.old n a.0) }
{
    let level = trail::level(work, w, terms, n, a);
    let m = trail::lower(level);
    trail_changes::cut(work, w, terms, n, m)
}

// jump and learn: the trail kept to m, on which t does not stand; then t with value v, justified by the rest of the conflict, which is the conflict
// without the rows in ps. Its level is that of the rest, at most m.
pub fn backjump(
    work: &mut [u64],
    w: usize,
    terms: usize,
    n: usize,
    t: Row,
    v: u16,
    m: Level,
    ps: &[u16],
    level: Level,
) -> Kept
    requires { ToBackjump w terms work.old n t.0 m.0 ps.now level.0 }
    ensures { Stands w terms work.new result.count result.top.0
        (backjumped_in w terms work.old n t.0 v m.0 ps.now) }
{
    let e = trail::conflict_place(w, terms);
    let b = t.0 as usize * w;
    let kept = trail_changes::cut(work, w, terms, n, m);
    bitset::copy_without(work, b, e, w, ps);
    trail_changes::push(work, w, terms, kept.count, t, v, level, false);
    Kept {
        count: kept.count + 1,
        top: trail::larger(kept.top, level),
    }
}

// jump: back to m, the level of the rest of the conflict, which justifies the opposite of l.
pub fn jump(work: &mut [u64], w: usize, terms: usize, n: usize, l: Row, m: Level) -> Kept
    requires { ToJump w terms work.old n l.0 m.0 }
    ensures { Stands w terms work.new result.count result.top.0 (jumped_in w terms work.old n l.0) }
{
    let v = trail::value(work, w, terms, n, l);
    backjump(work, w, terms, n, l, moves::other(v), m, &[l.0], m)
}

// flip: the trail kept below `level`, the level of the conflict, then the opposite of l as a decision.
pub fn flip(work: &mut [u64], w: usize, terms: usize, n: usize, l: Row, level: Level) -> Kept
    requires { ToFlip w terms work.old n l.0 level.0 }
    ensures { Stands w terms work.new result.count result.top.0 (flipped_in w terms work.old n l.0) }
{
    let old = trail::value(work, w, terms, n, l);
    let m = trail::lower(level);
    let kept = trail_changes::cut(work, w, terms, n, m);
    moves::decide(work, w, terms, kept.count, kept.top, l, moves::other(old))
}
