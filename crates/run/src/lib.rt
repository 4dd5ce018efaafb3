// The run of a step sheet, until it refutes the input, runs out or meets a step that no rule allows.
#![tactic(auto)]

ghost use Rattle.std.specs.Prelude.{◌≡◌, ◌<◌, ◌≤◌};
ghost use Rattle.calculus.specs.Sheets.{step_rows};
ghost use Rattle.state.specs.States.{Standing};
ghost use Rattle.run.specs.Ends.{onward, stopped_by, run_in, Ends};

use calculus::{Refusal, Verdict};
use state::{Answer, Next, Status};

// How a run ended: the verdict, the steps allowed, why it was refused, if it was, and where it stands.
#[derive(Clone, Copy)]
pub struct Ended {
    pub verdict: Verdict,
    pub steps: u16,
    pub refusal: Option<Refusal>,
    pub status: Status,
}

// Where the run goes on after the answer a, if it does.
fn onward(a: Answer) -> Option<Status>
    ensures { result ≡ onward a }
{
    match a {
        Ok(Next::On(next)) => Some(next),
        _ => None,
    }
}

// How a run ends on the answer a, after k allowed steps.
fn stopped(a: Answer, k: u16, here: Status) -> Ended
    requires { k < 65535 }
    ensures { result ≡ stopped_by a k here }
{
    match a {
        Err(refusal) => Ended {
            verdict: Verdict::Refused,
            steps: k,
            refusal: Some(refusal),
            status: here,
        },
        Ok(Next::Refuted) => Ended {
            verdict: Verdict::Refuted,
            steps: k + 1,
            refusal: None,
            status: here,
        },
        // An allowed step stops no run.
        Ok(Next::On(next)) => Ended {
            verdict: Verdict::Open,
            steps: k,
            refusal: None,
            status: next,
        },
    }
}

// The run of the step sheet from where it stands.
pub fn run_steps(
    terms: &[u16],
    steps: &[u16],
    work: &mut [u64],
    w: usize,
    n: usize,
    st: Status,
) -> Ended
    requires { Standing w n terms.now work.old st × (step_rows steps.now ≤ 65535) }
    ensures { Ends w n terms.now work.new
        (run_in w n terms.now steps.now work.old st) result }
{
    let count = steps.len() / 9;
    let mut here = st;
    for k in 0..count {
        let x = rows::step_at(steps, k);
        let a = steps::step(terms, work, w, n, here, x);
        let Some(next) = onward(a) else {
            return stopped(a, k as u16, here);
        };
        here = next;
    }
    Ended {
        verdict: Verdict::Open,
        steps: count as u16,
        refusal: None,
        status: here,
    }
}
