// Sets of term rows in one workspace: a window of w words at an offset holds a set, row t as bit t % 64 of the window's word t / 64.
#![tactic(auto)]

ghost use Rattle.std.specs.Prelude.{◌≡◌, ◌+◌, ◌/◌, ◌<◌, ◌≤◌, length};
ghost use Rattle.calculus.specs.Trail.{empty, insert, remove, without, union};
ghost use Rattle.calculus.specs.Terms.{filled};
ghost use Rattle.bitset.specs.Windows.{set_at, Holds};
ghost use Rattle.bitset.specs.Members.{word_of, first_of};

use calculus::Row;

// Whether row t is in the set at b.
#[tactic(auto, using(crate::proofs::Windows::set_in), unfolding(crate::specs::Windows::bit_at))]
pub fn member(work: &[u64], b: usize, w: usize, t: Row) -> bool
    requires { (t.0 / 64 < w) × (b + w ≤ length work.now) }
    ensures { result ≡ set_at work.now b w t.0 }
{
    let u = t.0 as usize;
    (work[b + u / 64] >> (u % 64)) % 2 == 1
}

// The set at b gains row t.
pub fn insert(work: &mut [u64], b: usize, w: usize, t: Row)
    requires { (t.0 / 64 < w) × (b + w ≤ length work.old) }
    ensures { Holds work.old work.new b w (insert (set_at work.old b w) t.0) }
{
    let u = t.0 as usize;
    work[b + u / 64] |= 1 << (u % 64);
}

// The set at b loses row t.
pub fn remove(work: &mut [u64], b: usize, w: usize, t: Row)
    requires { (t.0 / 64 < w) × (b + w ≤ length work.old) }
    ensures { Holds work.old work.new b w (remove (set_at work.old b w) t.0) }
{
    let u = t.0 as usize;
    work[b + u / 64] &= !(1 << (u % 64));
}

// The set at b becomes empty.
pub fn clear(work: &mut [u64], b: usize, w: usize)
    requires { b + w ≤ length work.old }
    ensures { Holds work.old work.new b w empty }
{
    work[b..b + w].fill(0);
}

// The set at `to` takes in the one at `from`, whose window ends before it.
pub fn union_into(work: &mut [u64], to: usize, from: usize, w: usize)
    requires { (from + w ≤ to) × (to + w ≤ length work.old) }
    ensures { Holds work.old work.new to w (union (set_at work.old to w) (set_at work.old from w)) }
{
    // Stays: after a zip over the two parts of the slice, a proof knows nothing of its elements.
    for i in 0..w {
        work[to + i] |= work[from + i];
    }
}

// The first row that x stands for as word k of a set.
pub fn first_member(k: usize, x: u64) -> Row
    requires { first_of k x < 65536 }
    ensures { result.0 ≡ first_of k x }
{
    Row((64 * k + x.trailing_zeros() as usize) as u16)
}

// Word k of a set, which is x, without row a.
#[tactic(auto, using(crate::proofs::Members::word_less, crate::proofs::Members::word_other))]
pub fn word_without(k: usize, x: u64, a: Row) -> u64
    ensures { word_of k result ≡ remove (word_of k x) a.0 }
{
    let u = a.0 as usize;
    if u / 64 == k { x & !(1 << (u % 64)) } else { x }
}

// Word k of a set, which is x, without the rows in ps before the first blank, one after the other. Most words have no member, and nothing is removed there.
pub fn word_without_all(k: usize, x: u64, ps: &[u16]) -> u64
    ensures { word_of k result ≡ without (word_of k x) (filled ps.now) }
{
    if x == 0 {
        return x;
    }
    let mut y = x;
    for &p in ps {
        if p == 65535 {
            return y;
        }
        y = word_without(k, y, Row(p));
    }
    y
}

// The set at `to` becomes the one at `from`, which is not below it, without the rows in ps before the first blank.
pub fn copy_without(work: &mut [u64], to: usize, from: usize, w: usize, ps: &[u16])
    requires { (to ≤ from) × (from + w ≤ length work.old) }
    ensures { Holds work.old work.new to w
        (without (set_at work.old from w) (filled ps.now)) }
{
    // Stays: the two windows may overlap, so that no iterator over the one can be held while the other is written.
    for j in 0..w {
        work[to + j] = word_without_all(j, work[from + j], ps);
    }
}
