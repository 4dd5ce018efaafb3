// Reads the four sheets as text from standard input to its end, runs the log, and prints the result, and on standard error what a person is told of
// a refusal. Arguments are not looked at.
#![tactic(auto)]

ghost use Rattle.std.specs.Prelude.{◌≡◌, ◌≤◌, IfOk, OnErr};
ghost use Rattle.text_rows.specs.View.{Bounded};
ghost use Rattle.text_stream.specs.Stream.{stream_of};
ghost use Rattle.check_log.specs.Input.{Fed, FedSome, Spoken};

use std::io;
use std::io::{Read, Stdin};
use text_stream::Progress;
use verdict::first;

// What came of the input: how many bytes came, and how many are to be printed and told.
#[derive(Clone, Copy)]
struct Spell {
    bytes: u64,
    printed: usize,
    told: usize,
}

// One read: the bytes that it gives are fed. Answers how many they are, 0 at the end of the input. Where it fails, nothing is fed.
fn read_piece(
    input: &mut Stdin,
    f: &mut Progress,
    line: &mut [u8; 526],
    names: &mut [u8; 55392],
    sorts: &mut [u16; 64],
    terms: &mut [u16; 1536],
    inputs: &mut [u16; 512],
    steps: &mut [u16; 9216],
) -> io::Result<usize>
    requires { Bounded f.old.core.counts }
    ensures bounded { Bounded f.new.core.counts }
    ensures size_bound { IfOk result (λ n. n ≤ 65536) }
    ensures fed { IfOk result (λ n. Fed
        (stream_of f.old
        line.old names.old sorts.old terms.old inputs.old steps.old)
        n
        (stream_of f.new
        line.new names.new sorts.new terms.new inputs.new steps.new)) }
    ensures unfed { OnErr result (stream_of f.new
        line.new names.new sorts.new terms.new inputs.new steps.new
        ≡ stream_of f.old
        line.old names.old sorts.old terms.old inputs.old steps.old) }
{
    let mut buf = [0u8; 65536];
    let size = input.read(&mut buf)?;
    *f = text_stream::feed(*f, &buf[..size], line, names, sorts, terms, inputs, steps);
    Ok(size)
}

// Reads to the end, and answers how many bytes came. Where a read fails, what came before it was fed all the same. Nothing says that the input ends, so
// the bytes are counted, up to a number that no run comes to.
// Stays: a `for` would count reads, and not the bytes that are promised and at which it stops.
fn read_all(
    input: &mut Stdin,
    f: &mut Progress,
    line: &mut [u8; 526],
    names: &mut [u8; 55392],
    sorts: &mut [u16; 64],
    terms: &mut [u16; 1536],
    inputs: &mut [u16; 512],
    steps: &mut [u16; 9216],
) -> io::Result<u64>
    requires { Bounded f.old.core.counts }
    ensures bounded { Bounded f.new.core.counts }
    ensures fed { IfOk result (λ n. Fed
        (stream_of f.old
        line.old names.old sorts.old terms.old inputs.old steps.old)
        n
        (stream_of f.new
        line.new names.new sorts.new terms.new inputs.new steps.new)) }
    ensures fed_before { OnErr result (FedSome
        (stream_of f.old
        line.old names.old sorts.old terms.old inputs.old steps.old)
        (stream_of f.new
        line.new names.new sorts.new terms.new inputs.new steps.new)) }
{
    let mut bytes = 0;
    while bytes < 1 << 63 {
        let size = read_piece(input, f, line, names, sorts, terms, inputs, steps)?;
        if size == 0 {
            return Ok(bytes);
        }
        bytes += size as u64;
    }
    Err(io::Error::from(io::ErrorKind::FileTooLarge))
}

// All of standard input, read and answered: what is printed, and what is told. Where it cannot be read, neither is there.
fn answer_input(input: &mut Stdin, out: &mut [u8; 128], said: &mut [u8; 256]) -> io::Result<Spell>
    ensures spoken { IfOk result (λ s. Spoken s.bytes s.printed s.told out.new said.new) }
    ensures unread { OnErr result ((out.new ≡ out.old) × (said.new ≡ said.old)) }
{
    let mut line = [0u8; 526];
    let mut names = [0u8; 55392];
    let mut sorts = [0u16; 64];
    let mut terms = [0u16; 1536];
    let mut inputs = [0u16; 512];
    let mut steps = [0u16; 9216];
    let mut f = reader::begin(&mut sorts, &mut terms, &mut inputs, &mut steps);
    let bytes = read_all(
        input,
        &mut f,
        &mut line,
        &mut names,
        &mut sorts,
        &mut terms,
        &mut inputs,
        &mut steps,
    )?;
    let a = verdict::conclude(
        f,
        &mut line,
        &mut names,
        &mut sorts,
        &mut terms,
        &mut inputs,
        &mut steps,
    );
    let printed = report::spell(a.outcome, out);
    let told = report::tell(a.complaint, said);
    Ok(Spell {
        bytes,
        printed,
        told,
    })
}

fn main(rt: HostRuntime) {
    let mut out = [0u8; 128];
    let mut said = [0u8; 256];
    let Ok(s) = answer_input(&mut rt.stdin(), &mut out, &mut said) else {
        let _ = rt.stderr().write_all(b"standard input could not be read\n");
        return;
    };
    if rt.stdout().write_all(first(&out, s.printed)).is_err() {
        let _ = rt.stderr().write_all(b"the result could not be written\n");
        return;
    }
    let _ = rt.stderr().write_all(first(&said, s.told));
}
