// What all rows share: bad lines, and what a field says of the sorts and terms so far.
#![tactic(auto)]

ghost use Rattle.std.specs.Prelude.{◌≡◌, ◌+◌, ◌≤◌};
ghost use Rattle.text_fields.specs.Words.{ref_of};
ghost use Rattle.text_names.specs.Table.{names_from};
ghost use Rattle.text_rows.specs.Rows.{sort_ref, is_taken};

// How many names and rows there are.
#[derive(Clone, Copy)]
pub struct Counts {
    pub sorts: usize,
    pub terms: usize,
    pub heads: usize,
    pub inputs: usize,
    pub steps: usize,
}

// A good row: the counts after it, and its first `width` numbers.
// Stays: the numbers with their count beside them, since a row has two, six or nine and nothing is on the heap.
#[derive(Clone, Copy)]
pub struct Row {
    pub counts: Counts,
    pub cells: [u16; 9],
    pub width: usize,
}

// Why a line of values is no row; the counts stay as they were.
#[derive(Clone, Copy, PartialEq, Eq)]
pub enum BadRow {
    // 2: its name, the first field, is reserved or another row's.
    Name,
    // 30: more rows than the ceiling.
    Ceiling,
    // 31: malformed in that field, counted from 1, or 0 for the line as a whole.
    // Stays: 0 for the whole line, as in the definition `shape_of`.
    Malformed(usize),
}

// What a field says of the terms so far.
#[tactic(auto, using(crate::proofs::Laws::name_below), unfolding(text_fields::specs::Words::ref_of))]
pub fn term_ref(names: &[u8; 55392], count: usize, f: &[u8]) -> u16
    requires { count ≤ 256 }
    ensures { result ≡ ref_of (names_from names.now 32 count) f.now }
{
    if text_fields::same(f, b"-") {
        return 65535;
    }
    text_names::find_name(names, 32, count, f).map_or(65534, |k| k as u16)
}

// What a field says of the sorts so far.
#[tactic(auto, using(crate::proofs::Laws::index_later, crate::proofs::Laws::name_below), unfolding(text_fields::specs::Words::ref_of))]
pub fn sort_ref(names: &[u8; 55392], count: usize, f: &[u8]) -> u16
    requires { count ≤ 32 }
    ensures { result ≡ sort_ref (names_from names.now 0 count) f.now }
{
    if text_fields::same(f, b"-") {
        return 65535;
    }
    if text_fields::same(b"prop", f) {
        return 0;
    }
    text_names::find_name(names, 0, count, f).map_or(65534, |k| (k + 1) as u16)
}

// Whether a row may not have this name of its own.
#[tactic(auto, unfolding(crate::specs::Rows::is_taken))]
pub fn is_taken(names: &[u8; 55392], base: usize, count: usize, f: &[u8]) -> bool
    requires base_bound { base ≤ 288 }
    requires count_bound { base + count ≤ 544 }
    ensures { result ≡ is_taken (names_from names.now base count) f.now }
{
    text_fields::same(f, b"-")
        || text_fields::same(f, b"prop")
        || text_names::find_name(names, base, count, f).is_some()
}
