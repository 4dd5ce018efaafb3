// A text in pieces: bytes are held until a newline ends their line, and a line that stands whole in a piece is read where it stands.
#![tactic(auto)]

ghost use Rattle.std.specs.Prelude.{◌≡◌, ◌&&◌, true, [], ◌+◌, ◌≤◌, eqb, ltb, length, take, drop};
ghost use Rattle.text_fields.specs.Split.{pick, before};
ghost use Rattle.text_rows.specs.View.{Bounded};
ghost use Rattle.text_lines.specs.Lines.{Control};
ghost use Rattle.text_lines.specs.View.{Sheets, is_textual};
ghost use Rattle.text_stream.specs.Stream.{holding, stream_of, feed_all};

use text_lines::Core;
use text_position::Position;

// What the reader carries from piece to piece.
#[derive(Clone, Copy)]
pub struct Progress {
    pub pos: Position,
    pub core: Core,
}

// Holds the bytes of an unfinished line.
fn hold_bytes(start: Position, l: &[u8], line: &mut [u8]) -> Position
    requires l_value { before 10 l.now ≡ length l.now }
    requires line_len { length line.old ≡ 526 }
    ensures { (c : Control) (s : Sheets) → holding result line.new c s
        ≡ feed_all (holding start line.old c s) l.now }
{
    let mut pos = start;
    for &b in l {
        buffers::put_byte(line, pos.at, b);
        pos = text_position::advanced_by(pos.line, pos.at, b);
    }
    pos
}

// The same of as many bytes as tell that the line is too long: no byte behind those is asked.
fn hold(start: Position, l: &[u8], line: &mut [u8]) -> Position
    requires l_value { before 10 l.now ≡ length l.now }
    requires line_len { length line.old ≡ 526 }
    ensures { (c : Control) (s : Sheets) → holding result line.new c s
        ≡ feed_all (holding start line.old c s) l.now }
{
    hold_bytes(start, &l[..l.len().min(526)], line)
}

// Whether a line whose newline is at place n of a piece stands whole in it, `at` bytes having come before.
fn stands_whole(at: usize, n: usize, end: usize) -> bool
    ensures { result ≡ (eqb at 0 && ltb n end) }
{
    (at == 0) & (n < end)
}

// What is to be held of a line's bytes: none where it stands whole.
fn to_hold(whole: bool, l: &[u8]) -> &[u8]
    ensures { result.now ≡ pick whole [] l.now }
{
    if whole { &[] } else { l }
}

// A finished line: where it stands, or what is held of it.
fn line_of<'a>(whole: bool, l: &'a [u8], line: &'a [u8], at: usize) -> &'a [u8]
    ensures { result.now ≡ pick whole l.now (take at line.now) }
{
    if whole {
        return l;
    }
    &line[..at.min(line.len())]
}

// The bytes up to the next newline, n bytes before it: a line that stands whole is read there, else they are held.
fn feed_part(
    f: Progress,
    rest: &[u8],
    n: usize,
    line: &mut [u8; 526],
    names: &mut [u8; 55392],
    sorts: &mut [u16],
    terms: &mut [u16],
    inputs: &mut [u16],
    steps: &mut [u16],
) -> Progress
    requires bounded { Bounded f.core.counts }
    requires n_value { n ≡ before 10 rest.now }
    requires n_in_bounds { n ≤ length rest.now }
    ensures steps_after { stream_of result
        line.new names.new sorts.new terms.new inputs.new steps.new
        ≡ feed_all (stream_of f
        line.old names.old sorts.old terms.old inputs.old steps.old)
        (take (n + 1) rest.now) }
    ensures stays_bounded { Bounded result.core.counts }
    ensures textual { is_textual f.core.fault ≡ true → is_textual result.core.fault ≡ true }
{
    let Progress { pos, core } = f;
    let end = rest.len();
    let whole = stands_whole(pos.at, n, end);
    let held = hold(pos, to_hold(whole, &rest[..n]), line);
    if n == end {
        return Progress { pos: held, core };
    }
    let next = text_position::next_line(held.line, held.at);
    let number = core.number();
    if number != 0 {
        return Progress { pos: next, core };
    }
    let l = line_of(whole, &rest[..n], line, held.at);
    let after = text_lines::end_line(core, held.line, l, names, sorts, terms, inputs, steps);
    Progress {
        pos: next,
        core: after,
    }
}

// What stands behind the newline at n, nothing where there is none.
fn behind(rest: &[u8], n: usize) -> &[u8]
    ensures { result.now ≡ drop (n + 1) rest.now }
{
    if n < rest.len() { &rest[n + 1..] } else { &[] }
}

// The bytes of a piece of the text, in order. Piece after piece is the whole.
pub fn feed(
    start: Progress,
    piece: &[u8],
    line: &mut [u8; 526],
    names: &mut [u8; 55392],
    sorts: &mut [u16],
    terms: &mut [u16],
    inputs: &mut [u16],
    steps: &mut [u16],
) -> Progress
    requires { Bounded start.core.counts }
    ensures steps_after { stream_of result
        line.new names.new sorts.new terms.new inputs.new steps.new
        ≡ feed_all (stream_of start
        line.old names.old sorts.old terms.old inputs.old steps.old)
        piece.now }
    ensures bounded { Bounded result.core.counts }
    ensures textual { is_textual start.core.fault ≡ true → is_textual result.core.fault ≡ true }
{
    let mut f = start;
    let mut rest = piece;
    while !rest.is_empty() {
        let n = text_fields::scan(rest, 10);
        f = feed_part(f, rest, n, line, names, sorts, terms, inputs, steps);
        rest = behind(rest, n);
    }
    f
}
