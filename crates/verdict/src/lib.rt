// A text is read and its log is run: from bytes to the verdict, and to what a person is told.
#![tactic(auto)]

ghost use Rattle.std.specs.Prelude.{◌≡◌, List, ℕ, ◌≤◌, length, take};
ghost use Rattle.calculus.specs.Run.{outcome};
ghost use Rattle.text_rows.specs.View.{Bounded};
ghost use Rattle.text_stream.specs.Stream.{stream_of, fresh_stream};
ghost use Rattle.reader.specs.Text.{TextRead};
ghost use Rattle.reader.specs.Stream.{fed_pieces, joined, zero_sheets};
ghost use Rattle.reader.specs.Places.{row_line};
ghost use Rattle.report.specs.Words.{meant_at};
ghost use Rattle.verdict.specs.Verdict.{most, call_with};
ghost use Rattle.verdict.specs.Fault.{sheet_of, cut_call, cut_refused, refused_row, row_in, line_of, line_meant};
ghost use Rattle.verdict.specs.Contract.{unread_answer, run_answer, answer_of, Concluded, Checked};

use calculus::Outcome;
use reader::ReadOutcome;
use report::{Complaint, Meant};
use text_lines::Sheet;
use text_stream::Progress;

// The result of a text, and what a person is told of it.
#[derive(Clone, Copy)]
pub struct Answer {
    pub outcome: Outcome,
    pub complaint: Complaint,
}

// The first n items, or all of them where there are no more.
pub fn first<T>(items: &[T], n: usize) -> &[T]
    ensures { result.now ≡ take n items.now }
{
    &items[..n.min(items.len())]
}

// Sheets run with a workspace and a trail buffer for as many terms as a text can have.
fn run_rows(sorts: &[u16], terms: &[u16], inputs: &[u16], steps: &[u16]) -> Outcome
    ensures { result ≡ outcome (call_with sorts.now terms.now inputs.now steps.now) }
{
    let mut work = [0u64; 2060];
    let mut trail = [0u16; 1024];
    checker::answer(sorts, terms, inputs, steps, &mut work, &mut trail)
}

// The run of the sheets up to the first k rows of one of them.
fn run_cut(sheet: Sheet, k: usize, sorts: &[u16], terms: &[u16], inputs: &[u16]) -> Outcome
    requires { k ≤ 65536 }
    ensures { result ≡ outcome (cut_call sheet k sorts.now terms.now inputs.now) }
{
    match sheet {
        Sheet::Sorts => run_rows(first(sorts, k * 2), &[], &[], &[]),
        Sheet::Terms => run_rows(sorts, first(terms, k * 6), &[], &[]),
        Sheet::Inputs => run_rows(sorts, terms, first(inputs, k * 2), &[]),
        Sheet::Steps => run_rows(sorts, terms, inputs, &[]),
    }
}

// Whether it is refused.
#[tactic(auto, unfolding(crate::specs::Fault::cut_refused))]
fn is_refused(sheet: Sheet, k: usize, sorts: &[u16], terms: &[u16], inputs: &[u16]) -> bool
    requires { k ≤ 65536 }
    ensures { result ≡ cut_refused sheet sorts.now terms.now inputs.now k }
{
    run_cut(sheet, k, sorts, terms, inputs).number != 0
}

// The first row of a sheet behind which a cut is refused.
fn refused_row(sheet: Sheet, rows: usize, sorts: &[u16], terms: &[u16], inputs: &[u16]) -> usize
    requires { rows ≤ 65535 }
    ensures value { result ≡ refused_row sheet rows sorts.now terms.now inputs.now }
    ensures upper_bound { result ≤ rows }
{
    for k in 0..rows {
        if is_refused(sheet, k + 1, sorts, terms, inputs) {
            return k;
        }
    }
    rows
}

// The sheet that a number of the run is about.
fn sheet_of(number: u16) -> Sheet
    ensures { result ≡ sheet_of number }
{
    match number {
        0..3 => Sheet::Sorts,
        3..6 => Sheet::Terms,
        6..9 => Sheet::Inputs,
        _ => Sheet::Steps,
    }
}

// The row at fault, by the rows of the sheets.
fn fault_row(o: Outcome, r: ReadOutcome, sorts: &[u16], terms: &[u16], inputs: &[u16]) -> usize
    ensures value { result ≡ row_in (sheet_of o.number) o r.sorts r.terms r.inputs sorts.now terms.now inputs.now }
    ensures upper_bound { result ≤ 65535 }
{
    match sheet_of(o.number) {
        Sheet::Sorts => refused_row(Sheet::Sorts, r.sorts as usize, sorts, terms, inputs),
        Sheet::Terms => refused_row(Sheet::Terms, r.terms as usize, sorts, terms, inputs),
        Sheet::Inputs => refused_row(Sheet::Inputs, r.inputs as usize, sorts, terms, inputs),
        Sheet::Steps => o.steps as usize,
    }
}

// The line of a row.
fn row_line(sheet: Sheet, sorts: u16, terms: u16, inputs: u16, row: usize) -> u64
    requires { row ≤ 65535 }
    ensures { result ≡ row_line sheet sorts terms inputs row }
{
    let a = u64::from(sorts);
    let b = a + u64::from(terms);
    let c = b + u64::from(inputs);
    let k = row as u64;
    match sheet {
        Sheet::Sorts => k + 2,
        Sheet::Terms => a + k + 4,
        Sheet::Inputs => b + k + 6,
        Sheet::Steps => c + k + 8,
    }
}

// The line of a run's number, 0 where there is none.
fn fault_line(o: Outcome, r: ReadOutcome, sorts: &[u16], terms: &[u16], inputs: &[u16]) -> u64
    ensures { result ≡ line_of o r.sorts r.terms r.inputs sorts.now terms.now inputs.now }
{
    // Stays: 0 for no line, as `line_of` has it.
    if o.number == 0 {
        return 0;
    }
    let row = fault_row(o, r, sorts, terms, inputs);
    row_line(sheet_of(o.number), r.sorts, r.terms, r.inputs, row)
}

// The line that was meant where the level is the other line's, none with any other number.
#[tactic(auto, unfolding(crate::specs::Fault::line_meant))]
fn line_meant(o: Outcome, steps: &[u16]) -> Option<Meant>
    ensures { meant_at result ≡ line_meant o steps.now }
{
    if o.number != 26 {
        return None;
    }
    if rows::cell(steps, o.steps as usize * 9) == 2 {
        return Some(Meant::Fail);
    }
    Some(Meant::Clash)
}

// A text that was not read.
fn unread_answer(r: ReadOutcome) -> Answer
    ensures { result ≡ unread_answer r }
{
    Answer {
        outcome: checker::turned_away(r.number),
        complaint: Complaint {
            number: r.number,
            line: r.line,
            field: r.place,
            why: r.why,
        },
    }
}

// A text that was read: its rows are run.
fn run_answer(r: ReadOutcome, sorts: &[u16], terms: &[u16], inputs: &[u16], steps: &[u16]) -> Answer
    ensures { result ≡ run_answer r.sorts r.terms r.inputs
        sorts.now terms.now inputs.now steps.now }
{
    let o = run_rows(sorts, terms, inputs, steps);
    let line = fault_line(o, r, sorts, terms, inputs);
    let why = line_meant(o, steps).map_or(0, u16::from);
    Answer {
        outcome: o,
        complaint: Complaint {
            number: o.number,
            line,
            field: o.place as u64,
            why,
        },
    }
}

// What a text gets, by what the reader returned and the sheets that it left.
fn judge(r: ReadOutcome, sorts: &[u16], terms: &[u16], inputs: &[u16], steps: &[u16]) -> Answer
    ensures { (bs : List ℕ)
        → TextRead bs most r sorts.now terms.now inputs.now steps.now → result ≡ answer_of bs }
{
    if r.number != 0 {
        return unread_answer(r);
    }
    run_answer(
        r,
        first(sorts, r.sorts as usize * 2),
        first(terms, r.terms as usize * 6),
        first(inputs, r.inputs as usize * 2),
        first(steps, r.steps as usize * 9),
    )
}

// The end of a text that came in pieces, however it was cut: it is run, and answered.
pub fn conclude(
    f: Progress,
    line: &mut [u8; 526],
    names: &mut [u8; 55392],
    sorts: &mut [u16; 64],
    terms: &mut [u16; 1536],
    inputs: &mut [u16; 512],
    steps: &mut [u16; 9216],
) -> Answer
    requires { Bounded f.core.counts }
    ensures { (ps : List (List ℕ)) → stream_of f
        line.old names.old sorts.old terms.old inputs.old steps.old
        ≡ fed_pieces (fresh_stream (zero_sheets most)) ps
        → Concluded (joined ps) result
        line.new names.new sorts.new terms.new inputs.new steps.new }
{
    let r = reader::finish(f, line, names, sorts, terms, inputs, steps);
    judge(r, sorts, terms, inputs, steps)
}

// A text in memory. `said` gets the line that a person is told, cut where it is short, and then zeros.
pub fn check_text(text: &[u8], said: &mut [u8]) -> Outcome
    ensures { Checked text.now (length said.old) result said.new }
{
    let mut line = [0u8; 526];
    let mut names = [0u8; 55392];
    let mut sorts = [0u16; 64];
    let mut terms = [0u16; 1536];
    let mut inputs = [0u16; 512];
    let mut steps = [0u16; 9216];
    let start = reader::begin(&mut sorts, &mut terms, &mut inputs, &mut steps);
    let f = text_stream::feed(
        start,
        text,
        &mut line,
        &mut names,
        &mut sorts,
        &mut terms,
        &mut inputs,
        &mut steps,
    );
    let a = conclude(
        f,
        &mut line,
        &mut names,
        &mut sorts,
        &mut terms,
        &mut inputs,
        &mut steps,
    );
    report::tell(a.complaint, said);
    a.outcome
}
