// The reader of the four sheets as text: its beginning, its end, and a whole text at once.
#![tactic(auto)]

ghost use Rattle.std.specs.Prelude.{◌≡◌, List, ℕ, ◌≤◌};
ghost use Rattle.text_fields.specs.Split.{pick};
ghost use Rattle.text_faults.specs.Why.{why_number};
ghost use Rattle.text_rows.specs.View.{kept_of, Bounded};
ghost use Rattle.text_lines.specs.View.{control_of};
ghost use Rattle.text_stream.specs.Stream.{stream_of};
ghost use Rattle.reader.specs.Text.{is_steps, fault_in, end_fault, fault_of, counted, lent_of, outcome_of, TextRead};
ghost use Rattle.reader.specs.Stream.{hold_rows, number_of, left_sheet, Begun, Finished};

use text_faults::Why;
use text_lines::{Core, Fault, Sheet};
use text_position::Position;
use text_rows::Counts;
use text_stream::Progress;

// A line at fault, or the line where a text ends too early.
#[derive(Clone, Copy)]
struct BadLine {
    line: u64,
    fault: Fault,
}

// What the reading of a text returns: its number, the rows of the four sheets, the number of the cause where a line is malformed, and line
// and place of the first bad line.
#[repr(C)]
#[derive(Clone, Copy)]
pub struct ReadOutcome {
    pub number: u16,
    pub sorts: u16,
    pub terms: u16,
    pub inputs: u16,
    pub steps: u16,
    pub why: u16,
    pub line: u64,
    pub place: u64,
}

// Before the first byte. The sheets are cleared.
pub fn begin(
    sorts: &mut [u16],
    terms: &mut [u16],
    inputs: &mut [u16],
    steps: &mut [u16],
) -> Progress
    ensures begun { Begun sorts.old terms.old inputs.old steps.old result
        sorts.new terms.new inputs.new steps.new }
    ensures bounded { Bounded result.core.counts }
{
    buffers::clear_numbers(sorts);
    buffers::clear_numbers(terms);
    buffers::clear_numbers(inputs);
    buffers::clear_numbers(steps);
    Progress {
        pos: Position { line: 1, at: 0 },
        core: Core {
            fault: None,
            sheet: Sheet::Sorts,
            headed: false,
            line: 0,
            counts: Counts {
                sorts: 0,
                terms: 0,
                heads: 0,
                inputs: 0,
                steps: 0,
            },
        },
    }
}

// Whether a sheet is the last one.
fn is_last(sheet: Sheet) -> bool
    ensures { result ≡ is_steps sheet }
{
    matches!(sheet, Sheet::Steps)
}

// A text that ends too early, in line n: inside it, or after a whole line.
fn early_end(whole: bool, n: usize) -> BadLine
    ensures { fault_in (Some result) ≡ end_fault whole n }
{
    let why = if whole { Why::Early } else { Why::Cut };
    BadLine {
        line: n as u64,
        fault: Fault::Malformed(0, why),
    }
}

// The fault of a text that ends in line n, inside it or after a whole line.
fn fault_of(core: Core, whole: bool, n: usize) -> Option<BadLine>
    ensures { (t : List ℕ) → fault_in result ≡ fault_of (control_of core t) whole n }
{
    if let Some(fault) = core.fault
        && u16::from(fault) != 0
    {
        return Some(BadLine {
            line: core.line as u64,
            fault,
        });
    }
    if is_last(core.sheet) && core.headed && whole {
        return None;
    }
    Some(early_end(whole, n))
}

// Whether sheets of these lengths hold the rows.
fn holds_rows(counts: Counts, a: usize, b: usize, c: usize, d: usize) -> bool
    requires { Bounded counts }
    ensures { result ≡ hold_rows counts.sorts counts.terms counts.inputs counts.steps a b c d }
{
    counts.sorts * 2 <= a
        && counts.terms * 6 <= b
        && counts.inputs * 2 <= c
        && counts.steps * 9 <= d
}

// The number that the text gives.
// Stays: 0 for none here and below, as the C struct `ReadOutcome` has it.
fn final_number(fault: Option<BadLine>, room: bool) -> u16
    ensures { result ≡ number_of (fault_in fault).number room }
{
    match fault {
        Some(bad) if u16::from(bad.fault) != 0 => u16::from(bad.fault),
        _ if room => 0,
        _ => 32,
    }
}

// A count that is returned: 0 after a refusal.
fn count_rows(number: u16, n: usize) -> u16
    requires { n ≤ 1024 }
    ensures { result ≡ counted number n }
{
    if number != 0 {
        return 0;
    }
    n as u16
}

// The line of a fault, its place and the number of its cause: 0 each where there is none, as the C struct has them.
fn told_of(fault: Option<BadLine>) -> (u64, u64, u16)
    ensures line { result.0 ≡ (fault_in fault).line }
    ensures place { result.1 ≡ (fault_in fault).place }
    ensures why { result.2 ≡ why_number (fault_in fault).why }
{
    match fault {
        Some(BadLine { line, fault }) => (
            line,
            fault.place() as u64,
            fault.why().map_or(0, u16::from),
        ),
        None => (0, 0, 0),
    }
}

// What is returned.
fn outcome_of(number: u16, fault: Option<BadLine>, counts: Counts) -> ReadOutcome
    requires { Bounded counts }
    ensures { (t : List ℕ) → result ≡ outcome_of number (fault_in fault) (kept_of counts t) }
{
    let (line, place, why) = told_of(fault);
    ReadOutcome {
        number,
        sorts: count_rows(number, counts.sorts),
        terms: count_rows(number, counts.terms),
        inputs: count_rows(number, counts.inputs),
        steps: count_rows(number, counts.steps),
        why,
        line,
        place,
    }
}

// A sheet at the end: zeros after a refusal.
fn leave_sheet(number: u16, sheet: &mut [u16])
    ensures { sheet.new ≡ left_sheet number sheet.old }
{
    if number != 0 {
        buffers::clear_numbers(sheet);
    }
}

// The end of the text.
pub fn finish(
    f: Progress,
    line: &mut [u8; 526],
    names: &mut [u8; 55392],
    sorts: &mut [u16],
    terms: &mut [u16],
    inputs: &mut [u16],
    steps: &mut [u16],
) -> ReadOutcome
    requires { Bounded f.core.counts }
    ensures { Finished
        (stream_of f
        line.old names.old sorts.old terms.old inputs.old steps.old)
        result line.new names.new sorts.new terms.new inputs.new steps.new }
{
    let Progress { pos, core } = f;
    let counts = core.counts;
    let fault = fault_of(core, pos.at == 0, pos.line);
    let room = holds_rows(counts, sorts.len(), terms.len(), inputs.len(), steps.len());
    let number = final_number(fault, room);
    buffers::clear_bytes(line);
    buffers::clear_bytes(names);
    leave_sheet(number, sorts);
    leave_sheet(number, terms);
    leave_sheet(number, inputs);
    leave_sheet(number, steps);
    outcome_of(number, fault, counts)
}

// A whole text.
pub fn read_text(
    text: &[u8],
    sorts: &mut [u16],
    terms: &mut [u16],
    inputs: &mut [u16],
    steps: &mut [u16],
) -> ReadOutcome
    ensures { TextRead text.now
        (lent_of sorts.old terms.old inputs.old steps.old)
        result sorts.new terms.new inputs.new steps.new }
{
    let mut line = [0u8; 526];
    let mut names = [0u8; 55392];
    let start = begin(sorts, terms, inputs, steps);
    let f = text_stream::feed(
        start, text, &mut line, &mut names, sorts, terms, inputs, steps,
    );
    finish(f, &mut line, &mut names, sorts, terms, inputs, steps)
}

#[cfg(test)]
mod tests {
    use super::*;
    use text_lines::end_line;
    use text_stream::feed;

    // Where the reading stands after a text that has a sort sheet alone.
    fn after(text: &[u8]) -> Core
        ensures { Bounded result.counts }
    {
        let mut sorts = [0u16; 64];
        let start = begin(&mut sorts, &mut [], &mut [], &mut []);
        let (mut line, mut names) = ([0u8; 526], [0u8; 55392]);
        let (terms, inputs, steps) = (&mut [], &mut [], &mut []);
        let end = feed(
            start, text, &mut line, &mut names, &mut sorts, terms, inputs, steps,
        );
        end.core
    }

    // A line's fault has the form that lines have: a fault that a caller gives may have the same number, field and cause.
    #[test]
    fn faults_of_lines() -> Result<(), &'static str> {
        let good = after(b"sort index value\nSlot - -\n");
        if good.fault.is_some() || good.number() != 0 {
            return Err("good lines have no fault");
        }
        let twice = after(b"sort index value\nSlot - -\nSlot - -\n");
        if !matches!(twice.fault, Some(Fault::Name)) {
            return Err("a name that is taken is a fault of its own");
        }
        let (mut names, mut sorts) = ([0u8; 55392], [0u16; 64]);
        let (terms, inputs, steps) = (&mut [], &mut [], &mut []);
        let bad = end_line(
            good, 3, b"Slot -", &mut names, &mut sorts, terms, inputs, steps,
        );
        if !matches!(bad.fault, Some(Fault::Malformed(0, Why::Fields))) {
            return Err("a line without a field is malformed as a whole");
        }
        let bad = after(b"sort index values\n");
        if !matches!(bad.fault, Some(Fault::Malformed(0, Why::Header))) {
            return Err("a header with a letter more is malformed as a whole");
        }
        Ok(())
    }
}
