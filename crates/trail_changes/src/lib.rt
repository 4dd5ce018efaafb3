// Changes of the trail in the workspace: an addition writes four words, and keeping to a level visits the entries from the first
// decision above it on.
#![tactic(auto)]

ghost use Rattle.std.specs.Prelude.{◌≡◌, false, ◌+◌, ◌*◌, ◌<◌, ◌≤◌, length};
ghost use Rattle.calculus.specs.Trail.{on};
ghost use Rattle.calculus.specs.WellFormed.{WellFormed};
ghost use Rattle.trail.specs.Words.{conflict, trail_in, entry_new, Laid, Started, Pushed, Cut};
ghost use Rattle.trail_changes.specs.Bases.{Base};

use calculus::{Level, Row};
use trail::Kept;

// The empty trail: the kinds become 0, and no other word changes.
pub fn start(work: &mut [u64], w: usize, terms: usize)
    requires { (conflict w terms + w ≤ length work.old) × (terms ≤ 64 * w) × (w ≤ 1023) }
    ensures { Started w terms work.old work.new }
{
    let b = terms * w + 2 * terms;
    work[b..b + terms].fill(0);
}

// One entry more, the newest, of a term that is not on the trail. A justification stands in the term's own words already.
pub fn push(
    work: &mut [u64],
    w: usize,
    terms: usize,
    n: usize,
    t: Row,
    value: u16,
    level: Level,
    decided: bool,
)
    requires { Laid w terms work.old n × (t.0 < terms) × (on (trail_in w terms work.old n) t.0 ≡ false) }
    ensures { Pushed w terms work.old work.new n (entry_new w work.old t.0 value level.0 decided) }
{
    let b = terms * w;
    let u = t.0 as usize;
    work[b + u] = u64::from(value);
    work[b + terms + u] = level.0;
    work[b + 2 * terms + u] = 1 + u64::from(decided);
    work[b + 3 * terms + n] = u as u64;
}

// The entries before the newest decision of level at most m + 1, and their greatest level; none where there is no such decision.
// Levels being what they are, all of them are of level at most m, so that keeping to m leaves them as they stand.
fn base(work: &[u64], w: usize, terms: usize, n: usize, m: Level) -> Kept
    requires { Laid w terms work.now n × WellFormed terms (trail_in w terms work.now n) }
    ensures { Base w terms work.now n m.0 result.count result.top.0 }
{
    for i in (0..n).rev() {
        let t = trail::row_at(work, w, terms, n, i);
        let before = trail::lower(trail::level(work, w, terms, n, t));
        if trail::decided(work, w, terms, n, t) & (before <= m) {
            return Kept {
                count: i,
                top: before,
            };
        }
    }
    Kept {
        count: 0,
        top: Level(0),
    }
}

// The trail kept to level m: past the base the order closes up, and the kinds of what goes become 0.
pub fn cut(work: &mut [u64], w: usize, terms: usize, n: usize, m: Level) -> Kept
    requires { Laid w terms work.old n × WellFormed terms (trail_in w terms work.old n) }
    ensures { Cut w terms work.old work.new n m.0 result.count result.top.0 }
{
    let first = base(work, w, terms, n, m);
    let b = terms * w;
    let mut j = first.count;
    let mut top = first.top;
    // Stays: the loop writes the words that it reads, so that no iterator over them can be held.
    for i in first.count..n {
        let t = work[b + 3 * terms + i] as usize;
        let level = Level(work[b + terms + t]);
        if level <= m {
            work[b + 3 * terms + j] = t as u64;
            top = trail::larger(top, level);
            j += 1;
        } else {
            work[b + 2 * terms + t] = 0;
        }
    }
    Kept { count: j, top }
}
