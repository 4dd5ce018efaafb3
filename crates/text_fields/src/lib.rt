// Bytes of a text: their classes, where one stands first, whether two runs of them are the same. Every function answers for any bytes.
#![tactic(auto)]

ghost use Rattle.std.specs.Prelude.{◌≡◌, false, ◌+◌, ◌≤◌, length, drop};
ghost use Rattle.text_fields.specs.Split.{before, same as sameBytes};
ghost use Rattle.text_fields.specs.Class.{class_of, is_newline, letter};
ghost use Rattle.text_fields.specs.Fours.{Passes};

// The class of a byte.
#[derive(Clone, Copy, PartialEq, Eq)]
pub enum ByteClass {
    Space,
    Newline,
    Name,
    Other,
}

// The classes of the bytes, sixteen to a row: `S` a space, `L` a newline, `N` part of a name, `.` none of these.
static CLASSES: [u8; 256] = *b"\
    ..........L.....\
    ................\
    SNNNNNNNNNNNNNNN\
    NNNNNNNNNNNNNNNN\
    NNNNNNNNNNNNNNNN\
    NNNNNNNNNNNNNNNN\
    NNNNNNNNNNNNNNNN\
    NNNNNNNNNNNNNNN.\
    ................\
    ................\
    ................\
    ................\
    ................\
    ................\
    ................\
    ................\
";

// The letter of a byte's class, from the table. Every question about a byte's class is asked here.
fn letter_of(b: u8) -> u8
    ensures { result ≡ letter (class_of b) }
{
    CLASSES[usize::from(b)]
}

// The class of a byte.
pub fn byte_class(b: u8) -> ByteClass
    ensures { result ≡ class_of b }
{
    match letter_of(b) {
        b'S' => ByteClass::Space,
        b'L' => ByteClass::Newline,
        b'N' => ByteClass::Name,
        _ => ByteClass::Other,
    }
}

// Whether `c` stands among some bytes. All bytes are asked, with no way out: so several are asked at once.
fn holds(s: &[u8], c: u8) -> bool
    ensures { result ≡ false → before c s.now ≡ length s.now }
{
    let mut any = false;
    for &b in s {
        any |= b == c;
    }
    any
}

// A place before which `c` does not stand: sixteen bytes are asked at a time, while none of them is `c`.
fn skip(s: &[u8], c: u8) -> usize
    ensures s_value { result + before c (drop result s.now) ≡ before c s.now }
    ensures upper_bound { result ≤ length s.now }
{
    let mut i = 0;
    while s.len() - i >= 16 {
        let end = i + 16;
        if holds(&s[i..end], c) {
            return i;
        }
        i = end;
    }
    i
}

// How many of the four bytes from i on stand before the first `c`: four where it is none of them.
fn of_four(s: &[u8], c: u8, i: usize) -> usize
    requires { i + 4 ≤ length s.now }
    ensures { Passes (before c) s.now i result }
{
    for k in 0..4 {
        if s[i + k] == c {
            return k;
        }
    }
    4
}

// How many bytes stand before the first `c`, one byte at a time.
fn scan_rest(s: &[u8], c: u8) -> usize
    ensures value { result ≡ before c s.now }
    ensures upper_bound { result ≤ length s.now }
{
    for (i, &b) in s.iter().enumerate() {
        if b == c {
            return i;
        }
    }
    s.len()
}

// How many bytes stand before the first `c`: it is sought sixteen bytes at a time, then four, then one.
pub fn scan(s: &[u8], c: u8) -> usize
    ensures value { result ≡ before c s.now }
    ensures upper_bound { result ≤ length s.now }
{
    let mut i = skip(s, c);
    while s.len() - i >= 4 {
        let k = of_four(s, c, i);
        if k < 4 {
            return i + k;
        }
        i += 4;
    }
    i + scan_rest(&s[i..], c)
}

// Whether two slices hold the same bytes.
#[tactic(auto, using(crate::proofs::Laws::same_pointwise))]
pub fn same(a: &[u8], b: &[u8]) -> bool
    ensures { result ≡ sameBytes a.now b.now }
{
    a == b
}

// Whether a byte ends a line.
pub fn is_newline(b: u8) -> bool
    ensures { result ≡ is_newline (class_of b) }
{
    byte_class(b) == ByteClass::Newline
}
