// Lent buffers: cleared, and filled from the left as far as they reach. Every function answers for a buffer of any length.
#![tactic(auto)]

ghost use Rattle.std.specs.Prelude.{◌≡◌, ◌+◌, ◌<◌, ◌^◌, length, replicate, set};
ghost use Rattle.std.proofs.lemmas.List.Edits.{sets};

// Clears a buffer of bytes.
pub fn clear_bytes(d: &mut [u8])
    ensures { d.new ≡ replicate (length d.old) 0 }
{
    d.fill(0);
}

// Clears a buffer of numbers.
pub fn clear_numbers(numbers: &mut [u16])
    ensures { numbers.new ≡ replicate (length numbers.old) 0 }
{
    numbers.fill(0);
}

// Stores a byte where there is room for it.
pub fn put_byte(d: &mut [u8], at: usize, b: u8)
    ensures { d.new ≡ set d.old at b }
{
    if at < d.len() {
        d[at] = b;
    }
}

// Stores bytes from `at` on, those for which there is room, and answers the place after them.
pub fn put_bytes(d: &mut [u8], at: usize, word: &[u8]) -> usize
    requires { at + length word.now < 2 ^ 64 }
    ensures value { result ≡ at + length word.now }
    ensures d_after { d.new ≡ sets d.old at word.now }
{
    for (j, &b) in word.iter().enumerate() {
        put_byte(d, at + j, b);
    }
    at + word.len()
}
