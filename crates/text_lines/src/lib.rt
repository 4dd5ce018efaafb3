// What one line of a text does to the reader's state and to the lent sheets.
#![tactic(auto)]

ghost use Rattle.std.specs.Prelude.{◌≡◌, true, List, ℕ, Some, IfOk};
ghost use Rattle.std.proofs.lemmas.List.Edits.{sets};
ghost use Rattle.text_fields.specs.Split.{pieces};
ghost use Rattle.text_rows.specs.View.{kept_of, taken_in, Bounded, Within};
ghost use Rattle.text_lines.specs.Lines.{quiet, bad, enter, header_of, header, next_sheet, row_of, value_column, row, read_line, line_effect};
ghost use Rattle.text_lines.specs.View.{fault_number, fault_place, fault_why, number_at, is_textual, row_fault, control_of, effect_of, StepBounded, sheets_of, stored, LineEnded};

use text_faults::Why;
use text_rows::{BadRow, Counts, Row};

// What is wrong with a bad line.
#[derive(Clone, Copy, PartialEq, Eq)]
pub enum Fault {
    // 2: a row's name, the first field, is reserved or another row's.
    Name,
    // 30: more rows than the ceiling.
    Ceiling,
    // 31: malformed in that field, counted from 1, or 0 for the line as a whole; and why.
    Malformed(usize, Why),
    // A number, a field and a cause, as a caller that makes a `Core` of its own gives them: no line of a text has this. Number 0 is that of no
    // fault, whatever stands beside it.
    Given(u16, usize, Option<Why>),
}

impl Fault {
    // The field at fault, counted from 1, or 0 for the line as a whole.
    pub fn place(self) -> usize
        ensures { result ≡ fault_place self }
    {
        match self {
            Fault::Name => 1,
            Fault::Ceiling => 0,
            Fault::Malformed(place, _) => place,
            Fault::Given(_, place, _) => place,
        }
    }

    // Why a malformed line is.
    pub fn why(self) -> Option<Why>
        ensures { result ≡ fault_why self }
    {
        match self {
            Fault::Malformed(_, why) => Some(why),
            Fault::Given(_, _, why) => why,
            _ => None,
        }
    }
}

// The number of a fault.
impl From<Fault> for u16 {
    ghost from_gives = { λ f n. n ≡ fault_number f };

    fn from(f: Fault) -> u16 {
        match f {
            Fault::Name => 2,
            Fault::Ceiling => 30,
            Fault::Malformed(..) => 31,
            Fault::Given(number, ..) => number,
        }
    }
}

// The sheets, in the order of the text.
#[derive(Clone, Copy, PartialEq, Eq)]
pub enum Sheet {
    Sorts,
    Terms,
    Inputs,
    Steps,
}

// Where the reading of lines stands.
#[derive(Clone, Copy)]
pub struct Core {
    pub fault: Option<Fault>,
    pub sheet: Sheet,
    pub headed: bool,
    pub line: usize,
    pub counts: Counts,
}

impl Core {
    // The number of the first bad line's fault, 0 where no line is bad.
    pub fn number(&self) -> u16
        ensures { result ≡ number_at self.now.fault }
    {
        self.fault.map_or(0, u16::from)
    }
}

// What a line does: where the reading stands after it, and the first `width` numbers of its row.
// Stays: the numbers with their count beside them, as in a row (text_rows::Row).
#[derive(Clone, Copy)]
struct Step {
    core: Core,
    cells: [u16; 9],
    width: usize,
}

// A line that adds no row.
fn quiet_line(core: Core) -> Step
    requires { Bounded core.counts }
    ensures effect_is { (t : List ℕ) → effect_of result t ≡ quiet (control_of core t) }
    ensures step_bounded { StepBounded result }
    ensures textual { is_textual core.fault ≡ true → is_textual result.core.fault ≡ true }
{
    Step {
        core,
        cells: [0u16; 9],
        width: 0,
    }
}

// A line that is malformed as a whole.
fn bad_line(core: Core, why: Why) -> Step
    requires { Bounded core.counts }
    ensures effect_is { (t : List ℕ) → effect_of result t ≡ bad (control_of core t) why }
    ensures step_bounded { StepBounded result }
    ensures textual { is_textual result.core.fault ≡ true }
{
    quiet_line(Core {
        fault: Some(Fault::Malformed(0, why)),
        ..core
    })
}

// The lines of a sheet begin, or have begun.
fn enter_sheet(core: Core, sheet: Sheet, headed: bool) -> Step
    requires { Bounded core.counts }
    ensures effect_is { (t : List ℕ) → effect_of result t ≡ enter (control_of core t) sheet headed }
    ensures step_bounded { StepBounded result }
    ensures textual { is_textual core.fault ≡ true → is_textual result.core.fault ≡ true }
{
    quiet_line(Core {
        sheet,
        headed,
        ..core
    })
}

// A sheet's header.
fn header_of(sheet: Sheet) -> &'static [u8]
    ensures { result.now ≡ header_of sheet }
{
    match sheet {
        Sheet::Sorts => b"sort index value",
        Sheet::Terms => b"term head sort a b c d",
        Sheet::Inputs => b"term value",
        Sheet::Steps => b"step rule term value p q r s t",
    }
}

// The first line of a sheet.
#[tactic(auto, using(text_fields::proofs::Laws::same_pointwise))]
fn header_line(core: Core, line: &[u8]) -> Step
    requires { Bounded core.counts }
    ensures effect_is { (t : List ℕ) → effect_of result t ≡ header (control_of core t) line.now }
    ensures step_bounded { StepBounded result }
    ensures textual { is_textual core.fault ≡ true → is_textual result.core.fault ≡ true }
{
    if line == header_of(core.sheet) {
        return enter_sheet(core, core.sheet, true);
    }
    bad_line(core, text_faults::header_why(line))
}

// An empty line.
fn empty_line(core: Core) -> Step
    requires { Bounded core.counts }
    ensures effect_is { (t : List ℕ) → effect_of result t ≡ next_sheet (control_of core t) core.sheet }
    ensures step_bounded { StepBounded result }
    ensures textual { is_textual core.fault ≡ true → is_textual result.core.fault ≡ true }
{
    match core.sheet {
        Sheet::Sorts => enter_sheet(core, Sheet::Terms, false),
        Sheet::Terms => enter_sheet(core, Sheet::Inputs, false),
        Sheet::Inputs => enter_sheet(core, Sheet::Steps, false),
        Sheet::Steps => bad_line(core, Why::Empty),
    }
}

// A row of a sheet.
fn sheet_row(
    sheet: Sheet,
    counts: Counts,
    line: &[u8],
    names: &mut [u8; 55392],
) -> Result<Row, BadRow>
    requires { Bounded counts }
    ensures names_after { taken_in counts result names.new ≡ row_of sheet (kept_of counts names.old) (pieces 32 line.now) }
    ensures within { IfOk result Within }
{
    match sheet {
        Sheet::Sorts => text_sorts::sort_row(counts, line, names),
        Sheet::Terms => text_terms::term_row(counts, line, names),
        Sheet::Inputs => text_steps::input_row(counts, line, names),
        Sheet::Steps => text_steps::step_row(counts, line, names),
    }
}

// The column of a sheet that holds values, or 0.
// Stays: 0 for none, as in the definitions `value_column` and `row_why`.
fn value_column(sheet: Sheet) -> usize
    ensures { result ≡ value_column sheet }
{
    match sheet {
        Sheet::Sorts => 0,
        Sheet::Terms => 0,
        Sheet::Inputs => 2,
        Sheet::Steps => 4,
    }
}

// The fault of a line of values that is no row.
fn row_fault(sheet: Sheet, bad: BadRow, line: &[u8]) -> Fault
    ensures fault_is { result ≡ row_fault sheet bad line.now }
    ensures textual { is_textual (Some result) ≡ true }
{
    match bad {
        BadRow::Name => Fault::Name,
        BadRow::Ceiling => Fault::Ceiling,
        BadRow::Malformed(place) => {
            Fault::Malformed(
                place,
                text_faults::row_why(value_column(sheet), place, line),
            )
        }
    }
}

// What a row's line does.
fn row_line(core: Core, taken: Result<Row, BadRow>, line: &[u8]) -> Step
    requires bounded { Bounded core.counts }
    requires within { IfOk taken Within }
    ensures effect_is { (t t' : List ℕ) → effect_of result t' ≡ row (control_of core t) (taken_in core.counts taken t') line.now }
    ensures step_bounded { StepBounded result }
    ensures textual { is_textual result.core.fault ≡ true }
{
    match taken {
        Ok(row) => {
            let cells = row.cells;
            Step {
                core: Core {
                    fault: None,
                    counts: row.counts,
                    ..core
                },
                cells,
                width: row.width,
            }
        }
        Err(bad) => quiet_line(Core {
            fault: Some(row_fault(core.sheet, bad, line)),
            ..core
        }),
    }
}

// A line that is not too long, after good ones.
#[tactic(auto, using(crate::proofs::Lines::same_empty), unfolding(crate::specs::Lines::read_line))]
fn read_line(core: Core, line: &[u8], names: &mut [u8; 55392]) -> Step
    requires { Bounded core.counts }
    ensures names_after { effect_of result names.new ≡ read_line (control_of core names.old) line.now }
    ensures step_bounded { StepBounded result }
    ensures textual { is_textual core.fault ≡ true → is_textual result.core.fault ≡ true }
{
    if !core.headed {
        return header_line(core, line);
    }
    if line.is_empty() {
        return empty_line(core);
    }
    let taken = sheet_row(core.sheet, core.counts, line, names);
    row_line(core, taken, line)
}

// What line n does, after good lines.
#[tactic(auto, using(std::proofs::lemmas::Bool::Decides::nat_tests), unfolding(crate::specs::Lines::line_effect))]
fn line_step(core: Core, n: usize, l: &[u8], names: &mut [u8; 55392]) -> Step
    requires bounded { Bounded core.counts }
    requires no_fault { number_at core.fault ≡ 0 }
    ensures names_after { effect_of result names.new ≡ line_effect (control_of core names.old) n l.now }
    ensures step_bounded { StepBounded result }
    ensures textual { is_textual core.fault ≡ true → is_textual result.core.fault ≡ true }
{
    let here = Core { line: n, ..core };
    if l.len() > 525 {
        return bad_line(here, Why::Long);
    }
    read_line(here, l, names)
}

// Stores a row's numbers from `at` on, as far as there is room.
// Stays: `copy_from_slice` wants `memmove` of whoever links the library.
fn store_all(sheet: &mut [u16], at: usize, cells: &[u16])
    ensures { sheet.new ≡ sets sheet.old at cells.now }
{
    let from = at.min(sheet.len());
    let n = (sheet.len() - from).min(cells.len());
    let row = &cells[..n];
    for j in 0..n {
        sheet[from + j] = row[j];
    }
}

// Stores a row in the sheet that its line goes to, behind the rows that the sheet has.
#[tactic(auto, using(text_names::proofs::Table::length_names), unfolding(crate::specs::View::stored))]
fn store_row(
    sheet: Sheet,
    counts: Counts,
    cells: &[u16],
    sorts: &mut [u16],
    terms: &mut [u16],
    inputs: &mut [u16],
    steps: &mut [u16],
)
    requires { Bounded counts }
    ensures { (t : List ℕ) → sheets_of sorts.new terms.new inputs.new steps.new
        ≡ stored sheet (kept_of counts t)
        (sheets_of sorts.old terms.old inputs.old steps.old) cells.now }
{
    match sheet {
        Sheet::Sorts => store_all(sorts, counts.sorts * 2, cells),
        Sheet::Terms => store_all(terms, counts.terms * 6, cells),
        Sheet::Inputs => store_all(inputs, counts.inputs * 2, cells),
        Sheet::Steps => store_all(steps, counts.steps * 9, cells),
    }
}

// Line n, after good lines: it is read, and its row stored.
pub fn end_line(
    core: Core,
    n: usize,
    l: &[u8],
    names: &mut [u8; 55392],
    sorts: &mut [u16],
    terms: &mut [u16],
    inputs: &mut [u16],
    steps: &mut [u16],
) -> Core
    requires bounded { Bounded core.counts }
    requires no_fault { number_at core.fault ≡ 0 }
    ensures line_ended { LineEnded (control_of core names.old) n l.now
        (sheets_of sorts.old terms.old inputs.old steps.old)
        (control_of result names.new)
        (sheets_of sorts.new terms.new inputs.new steps.new) }
    ensures bounded_2 { Bounded result.counts }
    ensures textual { is_textual core.fault ≡ true → is_textual result.fault ≡ true }
{
    let step = line_step(core, n, l, names);
    let cells = &step.cells[..step.width];
    store_row(core.sheet, core.counts, cells, sorts, terms, inputs, steps);
    step.core
}
