// What the allowed steps of the search do to the trail and the conflict in the workspace: an input's entry, decide, deduce, clash.
// Whether a step is allowed is tested before.
#![tactic(auto)]

ghost use Rattle.std.specs.Prelude.{◌≡◌, true, ◌∷◌, ℕ, ◌+◌, ◌/◌, ◌<◌, ◌≤◌, length};
ghost use Rattle.calculus.specs.Lists.{has, opposite};
ghost use Rattle.calculus.specs.Terms.{filled};
ghost use Rattle.calculus.specs.Inputs.{given};
ghost use Rattle.calculus.specs.WellFormed.{Within};
ghost use Rattle.bitset.specs.Windows.{Holds};
ghost use Rattle.trail.specs.Words.{trail_in, Laid};
ghost use Rattle.moves.specs.Post.{decided_in, deduced_in, ToGive, ToDecide, ToDeduce, Stands, Conflicts};

use calculus::{Level, Row};
use trail::Kept;

// The other truth value.
pub fn other(v: u16) -> u16
    ensures { result ≡ opposite v }
{
    u16::from(v == 0)
}

// The set of the rows in ps before the first blank, in the window at b.
fn gather(work: &mut [u64], b: usize, w: usize, ps: &[u16])
    requires { (b + w ≤ length work.old) × ((u : ℕ) → has (filled ps.now) u ≡ true → u / 64 < w) }
    ensures { Holds work.old work.new b w (has (filled ps.now)) }
{
    bitset::clear(work, b, w);
    for &p in ps {
        if p == 65535 {
            return;
        }
        bitset::insert(work, b, w, Row(p));
    }
}

// An entry of the input: justified by the empty set.
pub fn give(work: &mut [u64], w: usize, terms: usize, n: usize, t: Row, v: u16)
    requires { ToGive w terms work.old n t.0 }
    ensures { Stands w terms work.new (n + 1) 0 (given t.0 v ∷ trail_in w terms work.old n) }
{
    bitset::clear(work, t.0 as usize * w, w);
    trail_changes::push(work, w, terms, n, t, v, Level(0), false);
}

// decide: term t with value v, one level above `top`, the greatest so far.
pub fn decide(
    work: &mut [u64],
    w: usize,
    terms: usize,
    n: usize,
    top: Level,
    t: Row,
    v: u16,
) -> Kept
    requires { ToDecide w terms work.old n top.0 t.0 }
    ensures { Stands w terms work.new result.count result.top.0 (decided_in w terms work.old n t.0 v) }
{
    let above = Level(1 + top.0);
    trail_changes::push(work, w, terms, n, t, v, above, true);
    Kept {
        count: n + 1,
        top: above,
    }
}

// deduce: term t with value v, justified by the rows in ps, whose level is `level`. The justification is built in the term's own words.
pub fn propagate(
    work: &mut [u64],
    w: usize,
    terms: usize,
    n: usize,
    top: Level,
    t: Row,
    v: u16,
    ps: &[u16],
    level: Level,
) -> Kept
    requires { ToDeduce w terms work.old n top.0 t.0 (has (filled ps.now)) level.0 }
    ensures { Stands w terms work.new result.count result.top.0 (deduced_in w terms work.old n t.0 v ps.now) }
{
    let b = t.0 as usize * w;
    gather(work, b, w, ps);
    trail_changes::push(work, w, terms, n, t, v, level, false);
    Kept {
        count: n + 1,
        top: trail::larger(top, level),
    }
}

// clash: the conflict becomes the rows in ps and the row l.
pub fn conflict(work: &mut [u64], w: usize, terms: usize, n: usize, l: Row, ps: &[u16])
    requires { Laid w terms work.old n × (l.0 < terms) × Within (has (filled ps.now)) (trail_in w terms work.old n) }
    ensures { Conflicts w terms work.new n (trail_in w terms work.old n) (has (l.0 ∷ filled ps.now)) }
{
    let e = trail::conflict_place(w, terms);
    gather(work, e, w, ps);
    bitset::insert(work, e, w, l);
}
