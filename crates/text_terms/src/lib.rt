// Rows of terms.
#![tactic(auto)]

ghost use Rattle.std.specs.Prelude.{◌≡◌, true, false, [], ◌≤◌, ◌<◌, length, get_or, IfOk};
ghost use Rattle.text_fields.specs.Split.{pieces, contents};
ghost use Rattle.text_fields.specs.Class.{named};
ghost use Rattle.text_fields.specs.Words.{index_from};
ghost use Rattle.text_fields.specs.Shape.{shape_of};
ghost use Rattle.text_names.specs.Table.{names_from};
ghost use Rattle.text_rows.specs.Rows.{is_taken, free_head, head_of, term_added, term_row};
ghost use Rattle.text_rows.specs.View.{kept_of, taken_of, taken_in, Bounded, Within};
ghost use Rattle.text_terms.specs.Heads.{HeadIs};

use text_rows::{BadRow, Counts, Row};

// The number of a head, and how many free heads there are with it.
#[derive(Clone, Copy)]
struct HeadNumber {
    number: u16,
    heads: usize,
}

// A head that is no word of its own: free heads count from 16 by first use.
#[tactic(auto, using(text_rows::proofs::Laws::name_below, crate::proofs::Laws::free_new))]
fn free_head(names: &mut [u8; 55392], heads: usize, f: &[u8]) -> HeadNumber
    requires heads_bound { heads < 256 }
    requires f_named { named f.now ≡ true }
    requires f_short { length f.now ≤ 64 }
    ensures { HeadIs names.old heads
        (free_head (names_from names.old 288 heads) f.now (index_from 0 (names_from names.old 288 heads) f.now))
        result names.new }
{
    if let Some(k) = text_names::find_name(names, 288, heads, f) {
        return HeadNumber {
            number: (16 + k) as u16,
            heads,
        };
    }
    text_names::put_name(names, 288, heads, f);
    HeadNumber {
        number: (16 + heads) as u16,
        heads: heads + 1,
    }
}

// The number of a head.
#[tactic(auto, using(text_fields::proofs::Lines::index_below), unfolding(text_rows::specs::Rows::head_of))]
fn head_of(names: &mut [u8; 55392], heads: usize, f: &[u8]) -> HeadNumber
    requires heads_bound { heads < 256 }
    requires f_named { named f.now ≡ true }
    requires f_short { length f.now ≤ 64 }
    ensures { HeadIs names.old heads
        (head_of (names_from names.old 288 heads) f.now) result names.new }
{
    if text_fields::same(f, b"-") {
        return HeadNumber {
            number: 65535,
            heads,
        };
    }
    if let Some(k) = text_words::find_head(f) {
        return HeadNumber {
            number: k as u16,
            heads,
        };
    }
    free_head(names, heads, f)
}

// A term row that is good.
#[tactic(auto, using(text_rows::proofs::Fields::named_at, text_rows::proofs::Fields::short_at))]
fn put_term(counts: Counts, fields: &[&[u8]; 7], names: &mut [u8; 55392]) -> Row
    requires bounded { Bounded counts }
    requires room { counts.terms < 256 }
    requires good { shape_of 7 0 (contents fields.now) ≡ Ok tt }
    requires fresh { is_taken (names_from names.old 32 counts.terms) (get_or (contents fields.now) 0 []) ≡ false }
    ensures names_after { taken_of result names.new ≡ term_added (kept_of counts names.old) (contents fields.now) }
    ensures within { Within result }
{
    let n = counts.terms;
    let sort = text_rows::sort_ref(names, counts.sorts, fields[2]);
    let a = text_rows::term_ref(names, n, fields[3]);
    let b = text_rows::term_ref(names, n, fields[4]);
    let c = text_rows::term_ref(names, n, fields[5]);
    let d = text_rows::term_ref(names, n, fields[6]);
    let head = head_of(names, counts.heads, fields[1]);
    text_names::put_name(names, 32, n, fields[0]);
    Row {
        counts: Counts {
            terms: n + 1,
            heads: head.heads,
            ..counts
        },
        cells: [head.number, sort, a, b, c, d, 0, 0, 0],
        width: 6,
    }
}

// A line of the term sheet.
#[tactic(auto, using(text_names::proofs::Table::length_names, text_rows::proofs::Fields::contents_at), unfolding(text_rows::specs::Rows::term_row))]
pub fn term_row(counts: Counts, line: &[u8], names: &mut [u8; 55392]) -> Result<Row, BadRow>
    requires { Bounded counts }
    ensures names_after { taken_in counts result names.new ≡ term_row (kept_of counts names.old) (pieces 32 line.now) }
    ensures within { IfOk result Within }
{
    let mut fields = [line; 7];
    text_columns::check_line(line, 0, &mut fields).map_err(BadRow::Malformed)?;
    if counts.terms >= 256 {
        return Err(BadRow::Ceiling);
    }
    if text_rows::is_taken(names, 32, counts.terms, fields[0]) {
        return Err(BadRow::Name);
    }
    Ok(put_term(counts, &fields, names))
}
