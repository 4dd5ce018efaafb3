// The trail written out as numbers.
#![tactic(auto)]

ghost use Rattle.std.specs.Prelude.{◌≡◌, ◌*◌, ◌<◌, ◌≤◌, length};
ghost use Rattle.calculus.specs.Trail.{top_level, trail_numbers_of};
ghost use Rattle.calculus.specs.Run.{written};
ghost use Rattle.trail.specs.Words.{trail_in, Laid};

// The trail as numbers, the oldest entry first: term, value, level, and 1 for a decision. What follows in `out` is left alone.
pub fn write(work: &[u64], w: usize, terms: usize, n: usize, out: &mut [u16])
    requires { Laid w terms work.now n × (4 * n ≤ length out.old) × (top_level (trail_in w terms work.now n) < 65536) }
    ensures { out.new ≡ written (trail_numbers_of (trail_in w terms work.now n)) out.old }
{
    for i in 0..n {
        let t = trail::row_at(work, w, terms, n, i);
        let value = trail::value(work, w, terms, n, t);
        let level = trail::level(work, w, terms, n, t).0 as u16;
        let decided = u16::from(trail::decided(work, w, terms, n, t));
        out[4 * i..4 * i + 4].copy_from_slice(&[t.0, value, level, decided]);
    }
}
