// Values: decimal numbers, true, false and blank. Every function answers for any bytes.
#![tactic(auto)]

ghost use Rattle.std.specs.Prelude.{◌≡◌, true};
ghost use Rattle.text_fields.specs.Number.{digits, decimal, number as number_of, value as value_of, is_number, number_or};

// The number that a field's digits make.
fn read_digits(f: &[u8]) -> Option<u16>
    ensures { result ≡ digits 0 f.now }
{
    let mut n: u32 = 0;
    for &b in f {
        if !b.is_ascii_digit() {
            return None;
        }
        n = n * 10 + u32::from(b - b'0');
        if n > 65534 {
            return None;
        }
    }
    Some(n as u16)
}

// A decimal number without leading zeros.
fn read_decimal(f: &[u8]) -> Option<u16>
    ensures { result ≡ decimal f.now }
{
    match f {
        [] => None,
        [b'0', rest @ ..] => rest.is_empty().then_some(0),
        _ => read_digits(f),
    }
}

// A decimal number, or "-" for blank.
fn read_number(f: &[u8]) -> Option<u16>
    ensures { result ≡ number_of f.now }
{
    if text_fields::same(f, b"-") {
        return Some(65535);
    }
    read_decimal(f)
}

// A field of a value column.
pub fn read_value(f: &[u8]) -> Option<u16>
    ensures { result ≡ value_of f.now }
{
    if text_fields::same(f, b"true") {
        return Some(1);
    }
    if text_fields::same(f, b"false") {
        return Some(0);
    }
    read_number(f)
}

// The number of a field that is known to hold a value: its first byte tells which words it can be.
pub fn known_value(f: &[u8]) -> u16
    requires { is_number (value_of f.now) ≡ true }
    ensures { result ≡ number_or (value_of f.now) }
{
    match f[0] {
        b't' => 1,
        b'f' => 0,
        b'-' => 65535,
        _ => read_decimal(f).unwrap_or(65535),
    }
}
