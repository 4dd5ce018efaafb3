// Whether a set of rows on the trail holds a first-order decision, a decision on a term not of sort prop: by its members alone, word by word.
#![tactic(auto)]

ghost use Rattle.std.specs.Prelude.{◌≡◌, true, ◌*◌, ◌<◌, ◌≤◌, length};
ghost use Rattle.calculus.specs.Trail.{on, entry, holds, first_order};
ghost use Rattle.calculus.specs.WellFormed.{Within};
ghost use Rattle.bitset.specs.Windows.{set_at};
ghost use Rattle.bitset.specs.Members.{word_of};
ghost use Rattle.trail.specs.Words.{trail_in, Laid};
ghost use Rattle.decisions.specs.Decisions.{shared_at, Searchable, Shareable};

use calculus::{Level, Row};

// Whether term t, which is on the trail, is a first-order decision of level m.
fn first_order(
    work: &[u64],
    w: usize,
    terms: usize,
    n: usize,
    sheet: &[u16],
    t: Row,
    m: Level,
) -> bool
    requires { Laid w terms work.now n × (terms * 6 ≤ length sheet.now) × (t.0 < terms) × (on (trail_in w terms work.now n) t.0 ≡ true) }
    ensures { result ≡ first_order sheet.now m.0 (entry (trail_in w terms work.now n) t.0) }
{
    if trail::decided(work, w, terms, n, t) {
        return (sheet[t.0 as usize * 6 + 1] != 0) & (trail::level(work, w, terms, n, t) == m);
    }
    false
}

// Whether one of the rows in x, word k of a set on the trail, is such a decision. The lowest bit is taken off until none is left.
fn word_holds(
    work: &[u64],
    w: usize,
    terms: usize,
    n: usize,
    sheet: &[u16],
    k: usize,
    x: u64,
    m: Level,
) -> bool
    requires { Laid w terms work.now n × (terms * 6 ≤ length sheet.now) × Within (word_of k x) (trail_in w terms work.now n) }
    ensures { result ≡ holds (trail_in w terms work.now n) (word_of k x) (first_order sheet.now m.0) }
{
    let mut rest = x;
    while 0 < rest {
        let t = bitset::first_member(k, rest);
        if first_order(work, w, terms, n, sheet, t, m) {
            return true;
        }
        rest = rest & rest - 1;
    }
    false
}

// Whether the set at e, whose members are all on the trail, holds a first-order decision of level m.
pub fn holds_first_order(
    work: &[u64],
    w: usize,
    terms: usize,
    n: usize,
    sheet: &[u16],
    e: usize,
    m: Level,
) -> bool
    requires { Searchable w terms work.now n sheet.now e }
    ensures { result ≡ holds (trail_in w terms work.now n) (set_at work.now e w) (first_order sheet.now m.0) }
{
    share_first_order(work, w, terms, n, sheet, e, e, m)
}

// Whether the sets at e and f share a first-order decision of level m; the members of the first are all on the trail.
pub fn share_first_order(
    work: &[u64],
    w: usize,
    terms: usize,
    n: usize,
    sheet: &[u16],
    e: usize,
    f: usize,
    m: Level,
) -> bool
    requires { Shareable w terms work.now n sheet.now e f }
    ensures { result ≡ holds (trail_in w terms work.now n) (shared_at work.now e f w) (first_order sheet.now m.0) }
{
    for k in 0..w {
        let x = work[e + k] & work[f + k];
        if word_holds(work, w, terms, n, sheet, k, x, m) {
            return true;
        }
    }
    false
}
