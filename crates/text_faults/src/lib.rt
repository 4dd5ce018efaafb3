// Why a line is malformed, for a person to act on.
#![tactic(auto)]

ghost use Rattle.std.specs.Prelude.{◌≡◌, Some};
ghost use Rattle.text_fields.specs.Class.{class_of};
ghost use Rattle.text_faults.specs.Why.{holds as Why·holds, marked, is_plain, plain, header_why, row_why, why_number};

use text_fields::ByteClass;

// Why a text is malformed: a byte order mark, a carriage return, a line that is too long, another line than the header, an empty line behind the
// last sheet, a byte that no field may have, fields or spaces too many or too few, a name that is too long, no value, an end before the step
// sheet's header, an end inside a line.
#[derive(Clone, Copy, PartialEq, Eq)]
pub enum Why {
    Mark,
    Return,
    Long,
    Header,
    Empty,
    Byte,
    Fields,
    Name,
    Value,
    Early,
    Cut,
}

// The number of a cause.
impl From<Why> for u16 {
    ghost from_gives = { λ w n. n ≡ why_number (Some w) };

    fn from(w: Why) -> u16 {
        match w {
            Why::Mark => 1,
            Why::Return => 2,
            Why::Long => 3,
            Why::Header => 4,
            Why::Empty => 5,
            Why::Byte => 6,
            Why::Fields => 7,
            Why::Name => 8,
            Why::Value => 9,
            Why::Early => 10,
            Why::Cut => 11,
        }
    }
}

// Whether byte c stands in a line.
fn holds(l: &[u8], c: u8) -> bool
    ensures { result ≡ Why·holds c l.now }
{
    l.contains(&c)
}

// Whether a line begins with a byte order mark.
fn is_marked(l: &[u8]) -> bool
    ensures { result ≡ marked l.now }
{
    l.starts_with(b"\xef\xbb\xbf")
}

// Whether a byte is a space or part of a name.
fn is_plain_byte(b: u8) -> bool
    ensures { result ≡ is_plain (class_of b) }
{
    matches!(
        text_fields::byte_class(b),
        ByteClass::Space | ByteClass::Name
    )
}

// Whether every byte of a line is.
fn is_plain(l: &[u8]) -> bool
    ensures { result ≡ plain l.now }
{
    l.iter().all(|b| is_plain_byte(*b))
}

// Why a line is no header.
#[tactic(auto, unfolding(crate::specs::Why::header_why))]
pub fn header_why(l: &[u8]) -> Why
    ensures { result ≡ header_why l.now }
{
    if is_marked(l) {
        return Why::Mark;
    }
    if holds(l, 13) {
        return Why::Return;
    }
    Why::Header
}

// Why a row is malformed, by its place at fault and its sheet's value column.
#[tactic(auto, unfolding(crate::specs::Why::row_why))]
pub fn row_why(column: usize, place: usize, l: &[u8]) -> Why
    ensures { result ≡ row_why column place l.now }
{
    if holds(l, 13) {
        return Why::Return;
    }
    if place == 0 {
        if is_plain(l) {
            return Why::Fields;
        }
        return Why::Byte;
    }
    if place == column {
        return Why::Value;
    }
    Why::Name
}
