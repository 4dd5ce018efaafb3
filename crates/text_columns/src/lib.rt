// A line's fields: where they start and end, and whether each is well formed in its column. Every function answers for any bytes.
#![tactic(auto)]

ghost use Rattle.std.specs.Prelude.{◌≡◌, ℕ, true, false, ◌+◌, ◌≤◌, length, get_or, [], Ok};
ghost use Rattle.text_fields.specs.Split.{pieces, contents};
ghost use Rattle.text_fields.specs.Class.{class_of, is_space, is_name, run, name_end};
ghost use Rattle.text_fields.specs.Fours.{Passes};
ghost use Rattle.text_fields.specs.Number.{value as value_of, is_number};
ghost use Rattle.text_fields.specs.Shape.{well_formed, first_malformed, fields_are, shape_at, shape_of};

use text_fields::ByteClass;

// Whether a byte parts fields.
fn is_space(b: u8) -> bool
    ensures { result ≡ is_space (class_of b) }
{
    text_fields::byte_class(b) == ByteClass::Space
}

// Whether a byte is part of a name.
fn is_name_byte(b: u8) -> bool
    ensures { result ≡ is_name (class_of b) }
{
    text_fields::byte_class(b) == ByteClass::Name
}

// Whether a field holds a value.
fn holds_value(f: &[u8]) -> bool
    ensures { result ≡ is_number (value_of f.now) }
{
    text_values::read_value(f).is_some()
}

// Whether a field is well formed, in a value column or another.
fn is_well_formed(valued: bool, f: &[u8]) -> bool
    ensures { result ≡ well_formed valued f.now }
{
    if valued {
        return holds_value(f);
    }
    f.len() <= 64
}

// How many of the four bytes from i on are parts of a name, up to the first that is not.
fn names_of_four(line: &[u8], i: usize) -> usize
    requires { i + 4 ≤ length line.now }
    ensures { Passes run line.now i result }
{
    for k in 0..4 {
        if !is_name_byte(line[i + k]) {
            return k;
        }
    }
    4
}

// The end of the bytes of names that stand from `from` on, one byte at a time.
fn name_rest(line: &[u8], from: usize) -> usize
    requires { from ≤ length line.now }
    ensures value { result ≡ name_end line.now from }
    ensures upper_bound { result ≤ length line.now }
{
    for i in from..line.len() {
        if !is_name_byte(line[i]) {
            return i;
        }
    }
    line.len()
}

// The end of the bytes of names that stand from `from` on: four bytes at a time, as far as there are four, then one.
fn name_end(line: &[u8], from: usize) -> usize
    requires { from ≤ length line.now }
    ensures value { result ≡ name_end line.now from }
    ensures upper_bound { result ≤ length line.now }
{
    if line.len() < 4 {
        return name_rest(line, from);
    }
    let last = line.len() - 4;
    let mut i = from;
    while i <= last {
        let k = names_of_four(line, i);
        if k < 4 {
            return i + k;
        }
        i += 4;
    }
    name_rest(line, i)
}

// Whether a line has as many fields as are asked for, all filled; then they are in `fields`.
fn split<'a>(line: &'a [u8], fields: &mut [&'a [u8]]) -> bool
    ensures value { result ≡ fields_are (length fields.old) (pieces 32 line.now) }
    ensures fields { result ≡ true → contents fields.new ≡ pieces 32 line.now }
{
    let n = fields.len();
    let mut from = 0;
    for (k, field) in fields.iter_mut().enumerate() {
        let end = name_end(line, from);
        if end == from {
            return false;
        }
        *field = &line[from..end];
        if end == line.len() {
            return k + 1 == n;
        }
        if !is_space(line[end]) {
            return false;
        }
        from = end + 1;
    }
    false
}

// Whether each field is well formed, or the number of the first that is not: each is asked.
fn check_each(fields: &[&[u8]], column: usize) -> Result<(), usize>
    ensures { result ≡ shape_at (first_malformed column 1 (contents fields.now)) }
{
    for (k, f) in fields.iter().enumerate() {
        if !is_well_formed(k + 1 == column, f) {
            return Err(k + 1);
        }
    }
    Ok(())
}

// The same of fields of at most 64 bytes. No name among them is too long, so that only the value column is asked.
fn check_value(fields: &[&[u8]], column: usize) -> Result<(), usize>
    requires { (k : ℕ) → length (get_or (contents fields.now) k []) ≤ 64 }
    ensures { result ≡ shape_at (first_malformed column 1 (contents fields.now)) }
{
    if column == 0 || column > fields.len() {
        return Ok(());
    }
    if !holds_value(fields[column - 1]) {
        return Err(column);
    }
    Ok(())
}

// Whether a line of values is well formed, or the place at fault: the number of a field, or 0 where it is the line as a whole. Where it is well formed its
// fields are in `fields`, as many as its columns. `column` is the number of the value column, 0 where there is none.
#[tactic(auto, using(crate::proofs::Lines::pieces_short, crate::proofs::Lines::shape_fit, crate::proofs::Lines::shape_unfit))]
pub fn check_line<'a>(line: &'a [u8], column: usize, fields: &mut [&'a [u8]]) -> Result<(), usize>
    ensures value { result ≡ shape_of (length fields.old) column (pieces 32 line.now) }
    ensures fields { result ≡ Ok tt → contents fields.new ≡ pieces 32 line.now }
{
    if !split(line, fields) {
        return Err(0);
    }
    if line.len() <= 64 {
        return check_value(fields, column);
    }
    check_each(fields, column)
}
