// The runs on the small board and the ceilings, through the exported call. For each run a line: its name, the verdict, the steps
// allowed, the number, the entries, the place, and then each entry of the trail buffer as term, value, level and decision.
#![tactic(auto)]

ghost use Rattle.std.specs.Prelude.{◌<◌, ◌≤◌, length};

use calculus::Outcome;
use rows::BLANK;
use std::io;

// ---- sheets as texts: a character for each column, a digit for 0 to 9, a letter for 10 and on, and a point for blank

// The column that a character stands for.
fn column(c: u8) -> u16 {
    match c {
        b'0'..=b'9' => u16::from(c - b'0'),
        b'a'.. => u16::from(c - b'a') + 10,
        _ => BLANK,
    }
}

// The columns of a text, 48 at most, and zeros after them.
fn columns(text: &str) -> [u16; 48] {
    let mut sheet = [0; 48];
    for (cell, c) in sheet.iter_mut().zip(text.as_bytes()) {
        *cell = column(*c);
    }
    sheet
}

// How many columns it fills.
fn filled(text: &str) -> usize
    ensures { result ≤ 48 }
{
    text.len().min(48)
}

// ---- printing

// The verdict's word.
// Stays: the verdict is a number in the struct of the C interface.
fn word(verdict: u16) -> &'static str {
    match verdict {
        0 => "open",
        1 => "refuted",
        _ => "refused",
    }
}

// A line: the name of a run, what the call answered, and the entries of the trail buffer.
fn print_outcome(rt: &impl Print, name: &str, o: Outcome, trail: &[u16]) -> io::Result<()> {
    let verdict = word(o.verdict);
    print!(rt;
        "{name}: {verdict} {} {} {} {}",
        o.steps, o.number, o.entries, o.place
    )?;
    let (entries, _) = trail.as_chunks::<4>();
    for [term, value, level, decided] in entries.iter().take(usize::from(o.entries)) {
        print!(rt; ", {term} {value} {level} {decided}")?;
    }
    println!(rt)
}

// ---- runs

// The call on these sheets, with so much of the buffers lent. The workspace holds something before it.
fn run_lent(
    rt: &impl Print,
    name: &str,
    terms: &[u16],
    input: &[u16],
    log: &[u16],
    words: usize,
    numbers: usize,
) -> io::Result<()>
    requires { (words ≤ 2068) × (numbers ≤ 1028) }
{
    let sorts = [BLANK, BLANK];
    let mut work = [77u64; 2068];
    let mut trail = [0u16; 1028];
    let o = checker::answer(
        &sorts,
        terms,
        input,
        log,
        &mut work[..words],
        &mut trail[..numbers],
    );
    print_outcome(rt, name, o, &trail)
}

// An input and a log on the small board: a, b, e is a = b, then F(a), F(b), g is F(a) = F(b), not(e), or(e, g).
fn run_board(
    rt: &impl Print,
    name: &str,
    input: &str,
    log: &str,
    words: usize,
    numbers: usize,
) -> io::Result<()>
    requires { (words ≤ 2068) × (numbers ≤ 1028) }
{
    let terms = columns("g1....h1....0001..i10...i11...0034..102...3025..");
    let given = columns(input);
    let rows = columns(log);
    let g = filled(input);
    let n = filled(log);
    run_lent(rt, name, &terms, &given[..g], &rows[..n], words, numbers)
}

// A run on the board from a text of three parts: its name, its input rows, each a term and its value, and its step rows, each step, rule,
// term, value and five premises.
fn run_lines(rt: &impl Print, text: &str, words: usize, numbers: usize) -> io::Result<()>
    requires { (words ≤ 2068) × (numbers ≤ 1028) }
{
    let (name, sheets) = text.split_once('/').unwrap_or((text, ""));
    let (input, log) = sheets.split_once('/').unwrap_or((sheets, ""));
    run_board(rt, name, input, log, words, numbers)
}

// With 8N + 12 words and 4N numbers lent.
fn run(rt: &impl Print, text: &str) -> io::Result<()> {
    run_lines(rt, text, 76, 32)
}

// The rows of the table.
fn table(rt: &impl Print) -> io::Result<()> {
    run(rt, "nothing given//")?;
    run(rt, "fail/2150/79512....")?;
    run(rt, "opposite absent/21/79512....")?;
    run(rt, "jump over a decision/50/0.21.....29512....5.2......")?;
    run(rt, "decided twice//0.07.....0.07.....")?;
    run(rt, "resolve in search//3.0......")?;
    run(
        rt,
        "resolve barred/50/0.07.....0.17.....102101...29512....3.2......",
    )?;
    run(
        rt,
        "jump over e/50/0.07.....0.17.....102101...29512....5.2......",
    )?;
    run(
        rt,
        "clear b/61/0.07.....0.17.....15206....202101...4.1......",
    )?;
    run(
        rt,
        "clear a/61/0.07.....0.17.....15206....202101...4.0......",
    )?;
    run(rt, "unit/7120/175172...")?;
    run(rt, "e given 2/22/0.07.....")?;
    run(rt, "e given twice/2121/0.07.....")?;
    run(rt, "clash at level 0/2150/29512....")?;
    run(rt, "fail above level 0/50/0.21.....79512....")?;
    run(
        rt,
        "fail after a jump/5060/0.21.....29512....5.2......75216....29512....",
    )?;
    run(
        rt,
        "learn what is there/71/0.20.....0.50.....287025...8.7025...",
    )?;
    run(
        rt,
        "learn by one member/71/0.20.....0.50.....287025...8.702....",
    )
}

// Rows that went wrong, each at another place.
fn places(rt: &impl Print) -> io::Result<()> {
    run(rt, "no such premise/21/19512a...")?;
    run(rt, "premise absent//19512....")?;
    run(rt, "cong of another term/21/19212....")?;
    run(rt, "cong false/21/19502....")?;
    run(rt, "a premise too many/21/195122...")
}

// ---- ceilings

// A term sheet of free constants, all of them different.
// Stays: rows by their index, since the wrong answer `constants` (one row too many) is told by an index past the end.
fn constants() -> [u16; 1542] {
    let mut terms = [BLANK; 1542];
    for i in 0..257 {
        let head = 16 + i;
        terms[i * 6] = head as u16;
        terms[i * 6 + 1] = 1;
    }
    terms
}

// So many free constants, and buffers that suffice for any number of them.
fn run_constants(rt: &impl Print, name: &str, count: usize) -> io::Result<()>
    requires { count ≤ 257 }
{
    let terms = constants();
    let none = [0u16; 1];
    let rows = &none[..0];
    let n = count * 6;
    run_lent(rt, name, &terms[..n], rows, rows, 2068, 1028)
}

// As many terms as there may be and one more; buffers that just suffice, and each of them one short.
fn ceilings(rt: &impl Print) -> io::Result<()> {
    run_constants(rt, "256 terms", 256)?;
    run_constants(rt, "257 terms", 257)?;
    run_lines(rt, "8N+12 words, 4N numbers//", 76, 32)?;
    run_lines(rt, "8N+11 words//", 75, 32)?;
    run_lines(rt, "4N-1 numbers//", 76, 31)
}

// Every row of the table in order, then the places and the ceilings.
fn main(rt: HostRuntime) -> io::Result<()> {
    table(&rt)?;
    places(&rt)?;
    ceilings(&rt)
}
