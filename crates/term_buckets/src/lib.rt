// The bucket of a term row: its six numbers are mixed in 32-bit arithmetic that wraps on purpose.
#![tactic(auto)]

ghost use Rattle.std.specs.Prelude.{◌≡◌, ◌*◌, ◌%◌, ◌^◌, ◌<◌};
ghost use Rattle.term_buckets.specs.Buckets.{buckets, word, mixed_in, mix, bucket};

use calculus::Term;

// a * b, modulo 2^32.
pub fn wrapping_product(a: u32, b: u32) -> u32
    ensures { result ≡ (a * b) % 2 ^ 32 }
{
    a.wrapping_mul(b)
}

// Two numbers of a row as one word.
fn word_of(low: u16, high: u16) -> u32
    ensures { result ≡ word low high }
{
    u32::from(low) + 65536 * u32::from(high)
}

// What a mix is multiplied by, for each word.
const FACTOR: u32 = 3266489909;

// A mix with one word more in it.
fn mixed_in(m: u32, w: u32) -> u32
    ensures { result ≡ mixed_in m w }
{
    wrapping_product(m.wrapping_add(w), FACTOR)
}

// The mix of a row.
#[tactic(auto, unfolding(crate::specs::Buckets::mix))]
fn mix_of(e: Term) -> u32
    ensures { result ≡ mix e }
{
    let m = mixed_in(0, word_of(e.head, e.sort));
    let n = mixed_in(m, word_of(e.a, e.b));
    mixed_in(n, word_of(e.c, e.d))
}

// The bucket of a row.
#[tactic(auto, unfolding(crate::specs::Buckets::bucket))]
pub fn bucket_of(e: Term) -> usize
    ensures value { result ≡ bucket e }
    ensures upper_bound { result < buckets }
{
    (mix_of(e) / 4194304) as usize
}
