// One step of a log: the numbers 9, 10, 11, and then the step of its kind. A row is told by its kind first, so that every kind has its tests in one piece
// of the code.
#![tactic(auto)]

ghost use Rattle.state.specs.States.{Standing};
ghost use Rattle.steps.specs.Rows.{RowRefused, AnswersRow};

use calculus::{Kind, Refusal, Row, Step};
use state::{Answer, Status};

// Numbers 9, 10, 11 of a row: `shaped` tells whether its columns are those of its kind, `ready` whether the state suits the kind.
#[tactic(auto, unfolding(calculus::specs::Numbers::unless, calculus::specs::Place::place_of))]
fn row_refusal(terms: &[u16], x: Step, shaped: bool, ready: bool) -> Result<(), Refusal>
    ensures { RowRefused terms.now x shaped ready result }
{
    if !shaped {
        return Err(Refusal::Columns);
    }
    if !ready {
        return Err(Refusal::State);
    }
    if !step_rows::known(terms, x) {
        return Err(Refusal::NoRow(step_rows::strange_place(terms, x)));
    }
    Ok(())
}

// One step row: what it answers is what the definition says, and an allowed one leaves its state in the words.
pub fn step(terms: &[u16], work: &mut [u64], w: usize, n: usize, st: Status, x: Step) -> Answer
    requires { Standing w n terms.now work.old st }
    ensures { AnswersRow w n terms.now work.old work.new st x result }
{
    let k = Kind::from(x.step);
    match k {
        Kind::Decide => {
            row_refusal(terms, x, step_rows::decision_shaped(x), !st.conflict)?;
            search_steps::decide(terms, work, w, n, st, Row(x.term), x.value)
        }
        Kind::Deduce | Kind::Clash | Kind::Fail => {
            row_refusal(terms, x, step_rows::inference_shaped(x), !st.conflict)?;
            search_steps::infer(terms, work, w, n, st, x, k)
        }
        Kind::Resolve => {
            row_refusal(terms, x, step_rows::term_shaped(x), st.conflict)?;
            conflict_steps::resolve(terms, work, w, n, st, Row(x.term))
        }
        Kind::Clear => {
            row_refusal(terms, x, step_rows::term_shaped(x), st.conflict)?;
            conflict_steps::clear(terms, work, w, n, st, Row(x.term))
        }
        Kind::Jump => {
            row_refusal(terms, x, step_rows::term_shaped(x), st.conflict)?;
            conflict_steps::jump(terms, work, w, n, st, Row(x.term))
        }
        Kind::Flip => {
            row_refusal(terms, x, step_rows::pair_shaped(x), st.conflict)?;
            conflict_steps::flip(terms, work, w, n, st, Row(x.term), Row(x.p))
        }
        Kind::Learn => {
            row_refusal(terms, x, step_rows::learn_shaped(x), st.conflict)?;
            learning::learn(terms, work, w, n, st, x)
        }
        Kind::Unlisted => Err(Refusal::Columns),
    }
}
