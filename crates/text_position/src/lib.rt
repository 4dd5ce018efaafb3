// The reader's position: its line number and its place in that line.
#![tactic(auto)]

ghost use Rattle.std.specs.Prelude.{◌≡◌};
ghost use Rattle.text_position.specs.Place.{next_line, next_start, advanced};

#[derive(Clone, Copy)]
pub struct Position {
    pub line: usize,
    pub at: usize,
}

// The start of the next line. The number stops at the largest of 64 bits.
fn step_line(line: usize) -> Position
    ensures { result ≡ record { line = next_line line; at = 0 } }
{
    Position {
        line: line.saturating_add(1),
        at: 0,
    }
}

// Moves a position past a byte. The place stops at 526, past the longest line that can be good.
// Stays: the position is lent by &mut, as document 01 says.
pub fn advance(pos: &mut Position, byte: u8)
    ensures { pos.new ≡ advanced pos.old byte }
{
    let Position { line, at } = *pos;
    if text_fields::is_newline(byte) {
        *pos = step_line(line);
    } else if at < 526 {
        pos.at = at + 1;
    }
}

// The position past a byte.
pub fn advanced_by(line: usize, at: usize, byte: u8) -> Position
    ensures { result ≡ advanced (record { line = line; at = at }) byte }
{
    let mut pos = Position { line, at };
    advance(&mut pos, byte);
    pos
}

// Moves a position to the start of the next line.
pub fn end_line(pos: &mut Position)
    ensures { pos.new ≡ next_start pos.old }
{
    *pos = step_line(pos.line);
}

// The start of the next line.
pub fn next_line(line: usize, at: usize) -> Position
    ensures { result ≡ next_start (record { line = line; at = at }) }
{
    let mut start = Position { line, at };
    end_line(&mut start);
    start
}
