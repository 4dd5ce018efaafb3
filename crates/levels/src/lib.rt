// The level of a set of rows on the trail, by its members alone, word by word.
#![tactic(auto)]

ghost use Rattle.std.specs.Prelude.{◌≡◌, false, ℕ, ◌/◌, ◌<◌, ◌≤◌, max};
ghost use Rattle.calculus.specs.Terms.{filled};
ghost use Rattle.calculus.specs.Trail.{Set, remove, without, level_of};
ghost use Rattle.calculus.specs.WellFormed.{Within};
ghost use Rattle.bitset.specs.Windows.{set_at};
ghost use Rattle.bitset.specs.Members.{word_of, IsWord};
ghost use Rattle.trail.specs.Words.{trail_in, Laid};
ghost use Rattle.levels.specs.Sets.{SetOn};

use calculus::{Level, Row};

// The greater of `top` and the level of the rows in x, word k of a set on the trail. The lowest bit is taken off until none is left.
fn word_level(work: &[u64], w: usize, terms: usize, n: usize, k: usize, x: u64, top: Level) -> Level
    requires { Laid w terms work.now n × Within (word_of k x) (trail_in w terms work.now n) }
    ensures { result.0 ≡ max top.0 (level_of (trail_in w terms work.now n) (word_of k x)) }
{
    let mut most = top;
    let mut rest = x;
    while 0 < rest {
        let t = bitset::first_member(k, rest);
        let level = trail::level(work, w, terms, n, t);
        most = trail::larger(most, level);
        rest = rest & rest - 1;
    }
    most
}

// The level of the set s, whose members are all on the trail, and whose words `word` gives.
fn level_by<F: Fn(usize) -> u64>(work: &[u64], w: usize, terms: usize, n: usize, word: F) -> Level
    ghost s: { Set }
    requires { Laid w terms work.now n × Within s (trail_in w terms work.now n) × ((u : ℕ) → w ≤ u / 64 → s u ≡ false)
        × ((k : ℕ) → k < w → F.pre word k) × ((k x : ℕ) → k < w → F.post word k x → IsWord s k x) }
    ensures { result.0 ≡ level_of (trail_in w terms work.now n) s }
{
    let mut top = Level(0);
    for k in 0..w {
        top = word_level(work, w, terms, n, k, word(k), top);
    }
    top
}

// The level of the set at e, whose members are all on the trail.
pub fn level_of(work: &[u64], w: usize, terms: usize, n: usize, e: usize) -> Level
    requires { SetOn w terms work.now n e }
    ensures { result.0 ≡ level_of (trail_in w terms work.now n) (set_at work.now e w) }
{
    level_by(work, w, terms, n, |k| work[e + k])
}

// The level of the set at e without the row a.
pub fn level_without(work: &[u64], w: usize, terms: usize, n: usize, e: usize, a: Row) -> Level
    requires { SetOn w terms work.now n e }
    ensures { result.0 ≡ level_of (trail_in w terms work.now n) (remove (set_at work.now e w) a.0) }
{
    let rest = |k: usize| bitset::word_without(k, work[e + k], a);
    level_by(work, w, terms, n, rest)
}

// The level of the set at e without the rows in ps before the first blank.
pub fn level_without_all(
    work: &[u64],
    w: usize,
    terms: usize,
    n: usize,
    e: usize,
    ps: &[u16],
) -> Level
    requires { SetOn w terms work.now n e }
    ensures { result.0 ≡ level_of (trail_in w terms work.now n) (without (set_at work.now e w) (filled ps.now)) }
{
    let left = |k: usize| bitset::word_without_all(k, work[e + k], ps);
    level_by(work, w, terms, n, left)
}
