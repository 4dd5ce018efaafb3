// Numbers in decimal.
ghost use Rattle.std.specs.Prelude.{◌≡◌, ◌+◌, ◌%◌, ◌≤◌, drop};
ghost use Rattle.report.specs.Printed.{decimal};

// The digits of a number: those of a row from `start` on.
#[derive(Clone, Copy)]
pub struct Numeral {
    row: [u8; 20],
    start: usize,
    ghost inside: { start ≤ 20 },
}

impl Numeral {
    // The digits as bytes.
    pub fn bytes(&self) -> &[u8]
        ensures { result.now ≡ drop self.now.start self.now.row }
    {
        &self.row[self.start..]
    }
}

// The last digit of a number.
fn last_digit(n: u64) -> u8
    ensures { result ≡ 48 + n % 10 }
{
    48 + (n % 10) as u8
}

// A number in decimal. Its digits are found from the right.
// Stays: std writes a number through `fmt` alone, which promises nothing of when a write succeeds; `decimal` is promised always.
pub fn decimal(n: u64) -> Numeral
    ensures { drop result.start result.row ≡ decimal n }
{
    let mut row = [0u8; 20];
    let mut i = 19;
    let mut rest = n;
    while rest >= 10 {
        row[i] = last_digit(rest);
        rest /= 10;
        i -= 1;
    }
    row[i] = last_digit(rest);
    Numeral { row, start: i }
}
