// Names by words of bytes: whether two are the same, and the tag of one. Every function answers for any bytes.
#![tactic(auto)]

ghost use Rattle.std.specs.Prelude.{◌≡◌, ◌+◌, ◌*◌, ◌≤◌, ◌<◌, length};
ghost use Rattle.text_fields.specs.Split.{same};
ghost use Rattle.text_tags.specs.Tags.{word_at, wide_at, mixed as mixed_in, mix_name, tag_of};

// Four bytes from place i on, as a number, the first the least.
fn word(s: &[u8], i: usize) -> u64
    requires { i + 4 ≤ length s.now }
    ensures value { result ≡ word_at s.now i }
    ensures upper_bound { result < 4294967296 }
{
    u64::from(u32::from_le_bytes([s[i], s[i + 1], s[i + 2], s[i + 3]]))
}

// Eight bytes from place i on, as a number, the first the least.
fn wide_word(s: &[u8], i: usize) -> u64
    requires { i + 8 ≤ length s.now }
    ensures { result ≡ wide_at s.now i }
{
    word(s, i) + word(s, i + 4) * 4294967296
}

// Whether two names of one length, eight bytes or more, are the same: the last eight bytes, then eight at a time while more than eight are left.
fn same_words(a: &[u8], b: &[u8]) -> bool
    requires a_len { length a.now ≡ length b.now }
    requires in_bounds { 8 ≤ length a.now }
    ensures { result ≡ same a.now b.now }
{
    let n = a.len();
    if wide_word(a, n - 8) != wide_word(b, n - 8) {
        return false;
    }
    let mut i = 0;
    while n - i > 8 {
        if wide_word(a, i) != wide_word(b, i) {
            return false;
        }
        i += 8;
    }
    true
}

// Whether two names of one length are the same. Where a name is no whole number of words, the last word overlaps the one before it.
pub fn same_name(a: &[u8], b: &[u8]) -> bool
    requires { length a.now ≡ length b.now }
    ensures { result ≡ same a.now b.now }
{
    let n = a.len();
    if n < 4 {
        return text_fields::same(a, b);
    }
    if n < 8 {
        return (word(a, 0) == word(b, 0)) & (word(a, n - 4) == word(b, n - 4));
    }
    same_words(a, b)
}

// A number with another one mixed in: a product whose upper bits depend on all bits below them. It fits 64 bits, so that nothing wraps.
fn mixed(h: u64, w: u64) -> u64
    requires h_bound { h ≤ 4294967295 * 2654435761 }
    requires w_bound { w < 4294967296 }
    ensures value { result ≡ mixed_in h w }
    ensures upper_bound { result ≤ 4294967295 * 2654435761 }
{
    (h + w) % 4294967296 * 2654435761
}

// The bytes of a name below four bytes, mixed one at a time.
#[tactic(auto, unfolding(crate::specs::Tags::mix_bytes, crate::specs::Tags::mix_name))]
fn mix_bytes(name: &[u8]) -> u64
    requires { length name.now < 4 }
    ensures { result ≡ mix_name name.now }
{
    let mut h: u64 = 0;
    for &b in name {
        h = mixed(h, u64::from(b));
    }
    h
}

// The bytes of a name of four bytes or more, mixed four at a time while more than four are left, and the last four.
fn mix_words(name: &[u8]) -> u64
    requires { 4 ≤ length name.now }
    ensures { result ≡ mix_name name.now }
{
    let n = name.len();
    let mut h: u64 = 0;
    let mut i = 0;
    while n - i > 4 {
        h = mixed(h, word(name, i));
        i += 4;
    }
    mixed(h, word(name, n - 4))
}

// The bytes of a name, mixed.
fn mix(name: &[u8]) -> u64
    ensures { result ≡ mix_name name.now }
{
    if name.len() < 4 {
        return mix_bytes(name);
    }
    mix_words(name)
}

// The tag of a name.
#[tactic(auto, unfolding(crate::specs::Tags::tag_of))]
pub fn tag_of(name: &[u8]) -> usize
    ensures value { result ≡ tag_of name.now }
    ensures upper_bound { result < 1024 }
{
    (mix(name) / 1073741824 % 1024) as usize
}
