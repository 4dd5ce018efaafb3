// A lent list of bytes with tables of names: 67 bytes for each name, and behind the slots the tree of the names of each tag.
// Stays: the table is bytes that the caller lends, and its tree numbers at places in it: fixed memory, no heap.
#![tactic(auto)]

ghost use Rattle.std.specs.Prelude.{◌≡◌, ◌+◌, ◌*◌, ◌≤◌, ◌<◌, length};
ghost use Rattle.std.proofs.Math.Seq.{paste};
ghost use Rattle.text_fields.specs.Words.{index_from};
ghost use Rattle.text_tags.specs.Tags.{tag_of};
ghost use Rattle.text_names.specs.Table.{tag_at, held, first_place, below_place, digit_of, leads_on, spot_of, names_from, slot_put, with_name};

// Whether slot s holds a name.
#[tactic(auto, unfolding(crate::specs::Table::held))]
fn holds_name(table: &[u8], s: usize, name: &[u8]) -> bool
    requires s_in_bounds { s * 67 + 67 ≤ length table.now }
    requires name_len_bound { length name.now ≤ 64 }
    ensures { result ≡ held table.now s name.now }
{
    let place = s * 67;
    let from = place + 3;
    usize::from(table[place]) == name.len()
        && text_tags::same_name(&table[from..from + name.len()], name)
}

// The tag of slot s.
fn slot_tag(table: &[u8], s: usize) -> usize
    requires { s * 67 + 67 ≤ length table.now }
    ensures { result ≡ tag_at table.now s }
{
    usize::from(table[s * 67 + 1]) + usize::from(table[s * 67 + 2]) * 256
}

// Where the number of the first name of a tag stands.
fn first_place(base: usize, tag: usize) -> usize
    requires base_bound { base ≤ 288 }
    requires tag_bound { tag < 1024 }
    ensures { result ≡ first_place base tag }
{
    36448 + base * 32 + tag
}

// Where the number of the name below slot s by digit x stands.
fn below_place(s: usize, x: usize) -> usize
    requires s_bound { s < 544 }
    requires x_bound { x < 16 }
    ensures { result ≡ below_place s x }
{
    46688 + s * 16 + x
}

// Digit d of a name.
fn digit(name: &[u8], d: usize) -> usize
    ensures value { result ≡ digit_of name.now d }
    ensures upper_bound { result < 16 }
{
    let i = d / 2;
    if i >= name.len() {
        return 0;
    }
    let b = usize::from(name[i]);
    if d % 2 == 0 {
        return b % 16;
    }
    b / 16 % 16
}

// Whether number e leads to one of `count` names: it is not below `low`, and its slot has the tag.
#[tactic(auto, unfolding(crate::specs::Table::leads_on))]
fn leads_on(table: &[u8], base: usize, count: usize, tag: usize, low: usize, e: usize) -> bool
    requires table_len { length table.now ≡ 55392 }
    requires count_bound { base + count ≤ 544 }
    ensures { result ≡ leads_on table.now base count tag low e }
{
    low <= e && e < count && slot_tag(table, base + e) == tag
}

// The number of a name, or the place where the number of a new one goes: the search goes from the first name of its tag down the tree.
fn seek(table: &[u8], base: usize, count: usize, name: &[u8], tag: usize) -> Result<usize, usize>
    requires table_len { length table.now ≡ 55392 }
    requires base_bound { base ≤ 288 }
    requires count_bound { base + count ≤ 544 }
    requires name_len_bound { length name.now ≤ 64 }
    requires tag_value { tag ≡ tag_of name.now }
    requires tag_bound { tag < 1024 }
    ensures { result ≡ spot_of table.now base count name.now }
{
    let mut place = first_place(base, tag);
    let mut low = 0;
    let mut d = 0;
    while low < count {
        let e = usize::from(table[place]);
        if !leads_on(table, base, count, tag, low, e) {
            return Err(place);
        }
        let s = base + e;
        if holds_name(table, s, name) {
            return Ok(e);
        }
        place = below_place(s, digit(name, d));
        low = e + 1;
        d += 1;
    }
    Err(place)
}

// Where a name stands among the `count` names of the table that begins at slot `base`.
pub fn find_name(table: &[u8], base: usize, count: usize, name: &[u8]) -> Option<usize>
    requires table_len { length table.now ≡ 55392 }
    requires base_bound { base ≤ 288 }
    requires count_bound { base + count ≤ 544 }
    ensures { result ≡ index_from 0 (names_from table.now base count) name.now }
{
    if name.len() > 64 {
        return None;
    }
    let tag = text_tags::tag_of(name);
    seek(table, base, count, name, tag).ok()
}

// Copies a name to a place.
// Stays: `copy_from_slice` wants `memmove` of whoever links the library.
fn copy(table: &mut [u8], at: usize, name: &[u8])
    requires { at + length name.now ≤ length table.old }
    ensures { table.new ≡ paste table.old at name.now (length name.now) }
{
    for i in 0..name.len() {
        table[at + i] = name[i];
    }
}

// Writes a name's slot.
fn put_slot(table: &mut [u8], s: usize, name: &[u8], tag: usize)
    requires s_in_bounds { s * 67 + 67 ≤ length table.old }
    requires name_len_bound { length name.now ≤ 64 }
    requires tag_bound { tag < 1024 }
    requires tag_value { tag ≡ tag_of name.now }
    ensures { table.new ≡ slot_put table.old s name.now }
{
    let place = s * 67;
    table[place] = name.len() as u8;
    table[place + 1] = (tag % 256) as u8;
    table[place + 2] = (tag / 256) as u8;
    copy(table, place + 3, name);
}

// Puts name n into the table that begins at slot `base`, unless the table has it.
pub fn put_name(table: &mut [u8], base: usize, n: usize, name: &[u8])
    requires table_len { length table.old ≡ 55392 }
    requires base_bound { base ≤ 288 }
    requires n_bound { n < 256 }
    requires name_len_bound { length name.now ≤ 64 }
    ensures { table.new ≡ with_name table.old base n name.now }
{
    let tag = text_tags::tag_of(name);
    if let Err(place) = seek(table, base, n, name, tag) {
        put_slot(table, base + n, name, tag);
        table[place] = n as u8;
    }
}
