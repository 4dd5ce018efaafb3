// What is printed: a result for a program to read, and a complaint for a person. Both answer for a buffer of any length.
#![tactic(auto)]

ghost use Rattle.std.specs.Prelude.{◌≡◌, [], ◌≤◌, length};
ghost use Rattle.text_fields.specs.Split.{pick};
ghost use Rattle.report.specs.Put.{Laid, joined};
ghost use Rattle.report.specs.Printed.{verdict_word, printed};
ghost use Rattle.report.specs.Words.{meaning, cause, meant_number};
ghost use Rattle.report.specs.Complaint.{complained};

mod numeral;

use calculus::Outcome;
use numeral::decimal;

// What stands before each number of a result, and between a number and its words.
const SPACE: &[u8] = b" ";

// What ends a line.
const NEWLINE: &[u8] = b"\n";

// The line that was meant where the row with 26 is the other one.
#[derive(Clone, Copy)]
pub enum Meant {
    Fail,
    Clash,
}

// The numbers of the causes of 26, behind those that make a text malformed.
impl From<Meant> for u16 {
    ghost from_gives = { λ m n. n ≡ meant_number m };

    fn from(meant: Meant) -> u16 {
        match meant {
            Meant::Fail => 12,
            Meant::Clash => 13,
        }
    }
}

// What is wrong with a text or a call: the number of the refusal or 0, the line or 0, its field or 0, and the number of the
// cause or 0: what makes a text malformed, or which line was meant.
// Stays: 0 for none, as in the C structs `Outcome` and `ReadOutcome` that these come from; `complained` is over them.
#[derive(Clone, Copy)]
pub struct Complaint {
    pub number: u16,
    pub line: u64,
    pub field: u64,
    pub why: u16,
}

// The word of a verdict.
#[tactic(auto, unfolding(crate::specs::Printed::verdict_word))]
fn verdict_word(v: u16) -> &'static [u8]
    ensures { result.now ≡ verdict_word v }
{
    match v {
        0 => b"open",
        1 => b"refuted",
        _ => b"refused",
    }
}

// The words of a number.
#[tactic(auto, unfolding(crate::specs::Words::meaning))]
fn meaning(n: u16) -> &'static [u8]
    ensures { result.now ≡ meaning n }
{
    match n {
        1 => b"a sort row breaks the rule for sorts",
        2 => b"a name is repeated or reserved",
        3 => b"an argument is no earlier row",
        4 => b"head, sort and arguments do not fit",
        5 => b"a row with the head and arguments of an earlier one",
        6 => b"an input row names no term",
        7 => b"a value that the term cannot have",
        8 => b"a term given twice",
        9 => b"a step's columns are wrong",
        10 => b"wrong state for the step",
        11 => b"the term or a premise is no row",
        12 => b"a premise is not on the trail",
        13 => b"the rule does not fit",
        14 => b"the value is there already",
        15 => b"the opposite is there",
        16 => b"the opposite is not there",
        17 => b"not a member of the conflict",
        18 => b"it is a decision",
        19 => b"resolve is barred",
        20 => b"not the decision that clear needs",
        21 => b"its level is not above the rest, or learn's level is outside its range",
        22 => b"a term's sort or head is wrong for the step, or the value does not suit it",
        23 => b"no shared decision",
        25 => b"the clause does not match the members, or one is named twice",
        26 => b"fail is the line at level 0, clash the one above it",
        27 => b"the value contradicts an equation on the trail",
        30 => b"above a ceiling",
        31 => b"malformed",
        32 => b"a lent buffer is short",
        _ => b"",
    }
}

// The words of a cause.
#[tactic(auto, unfolding(crate::specs::Words::cause))]
fn cause(why: u16) -> &'static [u8]
    ensures { result.now ≡ cause why }
{
    match why {
        1 => b"a byte order mark stands before the header",
        2 => b"a carriage return, where lines end with a newline alone",
        3 => b"the line has more than 525 bytes",
        4 => b"this is not the sheet's header line",
        5 => b"an empty line after the last sheet",
        6 => b"a tab or another byte that no field may have",
        7 => b"not as many fields as the sheet has columns, or not single spaces",
        8 => b"a name of more than 64 bytes",
        9 => b"neither true, false, - nor a number up to 65534 without leading zeros",
        10 => b"the text ends before the header of the step sheet",
        11 => b"the last line has no newline",
        12 => b"fail was meant",
        13 => b"clash was meant",
        _ => b"",
    }
}

// Lays parts into a buffer, one behind the other: answers how many bytes they are, and `out` holds them, cut where it is short, and then zeros.
fn lay(parts: &[&[u8]], out: &mut [u8]) -> usize
    requires { length (joined parts.now) ≤ 256 }
    ensures { Laid (length out.old) (joined parts.now) result out.new }
{
    buffers::clear_bytes(out);
    let mut at = 0;
    for part in parts {
        at = buffers::put_bytes(out, at, part);
    }
    at
}

// The two lines of a result: answers how many bytes they are, and `out` holds them, cut where it is short, and then zeros.
pub fn spell(o: Outcome, out: &mut [u8]) -> usize
    ensures { Laid (length out.old) (printed o) result out.new }
{
    let steps = decimal(u64::from(o.steps));
    let number = decimal(u64::from(o.number));
    let entries = decimal(u64::from(o.entries));
    let place = decimal(u64::from(o.place));
    lay(
        &[
            b"verdict steps code trail place\n",
            verdict_word(o.verdict),
            SPACE,
            steps.bytes(),
            SPACE,
            number.bytes(),
            SPACE,
            entries.bytes(),
            SPACE,
            place.bytes(),
            NEWLINE,
        ],
        out,
    )
}

// A part that is told, or nothing.
fn told(is_told: bool, part: &[u8]) -> &[u8]
    ensures { result.now ≡ pick is_told part.now [] }
{
    if is_told { part } else { &[] }
}

// The line for a person: answers how many bytes it is, and `out` holds it, cut where it is short, and then zeros. Nothing where there is no fault.
// Out of line: inlined into the call from bytes, it hides from the compiler that nobody reads the buffers which that call clears at its end.
#[inline(never)]
pub fn tell(c: Complaint, out: &mut [u8]) -> usize
    ensures { Laid (length out.old) (complained c) result out.new }
{
    if c.number == 0 {
        return lay(&[], out);
    }
    let in_line = c.line != 0;
    let in_field = in_line & (c.field != 0);
    let is_caused = c.why != 0;
    let line = decimal(c.line);
    let field = decimal(c.field);
    let number = decimal(u64::from(c.number));
    lay(
        &[
            told(in_line, b"line "),
            told(in_line, line.bytes()),
            told(in_field, b", field "),
            told(in_field, field.bytes()),
            told(in_line, b": "),
            number.bytes(),
            SPACE,
            meaning(c.number),
            told(is_caused, b": "),
            told(is_caused, cause(c.why)),
            NEWLINE,
        ],
        out,
    )
}
