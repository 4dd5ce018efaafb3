// The input rows: the numbers 6, 7, 8, and the trail that they make.
#![tactic(auto)]

ghost use Rattle.std.specs.Prelude.{◌≡◌, ◌+◌, ◌*◌, ◌≤◌, length};
ghost use Rattle.calculus.specs.Sheets.{term_rows};
ghost use Rattle.calculus.specs.Trail.{top_level};
ghost use Rattle.trail.specs.Words.{conflict, trail_in, Laid};
ghost use Rattle.inputs.specs.Loaded.{RowLoaded, Loaded};

use calculus::{Refusal, Row};

// One input row: its number, or its entry on the trail of k entries.
#[tactic(auto, using(sheets::proofs::Lengths::fit_term, crate::proofs::Laws::row_refused, crate::proofs::Laws::row_given, crate::proofs::Laws::row_loaded, crate::proofs::Laws::not_given))]
fn load_row(
    terms: &[u16],
    work: &mut [u64],
    w: usize,
    n: usize,
    k: usize,
    t: Row,
    v: u16,
) -> Result<(), Refusal>
    requires { Laid w n work.old k × (n ≡ term_rows terms.now) × (top_level (trail_in w n work.old k) ≡ 0) }
    ensures { RowLoaded w n terms.now work.old work.new k t.0 v result }
{
    sheets::check_input(terms, t, v)?;
    sheets::check_given(trail::present(work, w, n, k, t))?;
    moves::give(work, w, n, k, t, v);
    Ok(())
}

// Puts the entries of the input on an empty trail, until a row is in trouble.
#[tactic(auto, using(crate::proofs::Laws::loading_more, crate::proofs::Laws::loading_stop, crate::proofs::Laws::loading_all))]
pub fn load(
    terms: &[u16],
    inputs: &[u16],
    work: &mut [u64],
    w: usize,
    n: usize,
) -> Result<(), Refusal>
    requires { (conflict w n + w ≤ length work.old) × (n ≤ 64 * w) × (w ≤ 1023) × (n ≡ term_rows terms.now) }
    ensures { Loaded w n terms.now inputs.now work.new result }
{
    trail_changes::start(work, w, n);
    let (rows, _) = inputs.as_chunks::<2>();
    for (k, row) in rows.iter().enumerate() {
        load_row(terms, work, w, n, k, Row(row[0]), row[1])?;
    }
    Ok(())
}
