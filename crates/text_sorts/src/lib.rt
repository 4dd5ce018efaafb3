// Rows of sorts.
#![tactic(auto)]

ghost use Rattle.std.specs.Prelude.{◌≡◌, false, [], ◌<◌, get_or, IfOk};
ghost use Rattle.text_fields.specs.Split.{pieces, contents};
ghost use Rattle.text_fields.specs.Shape.{shape_of};
ghost use Rattle.text_names.specs.Table.{names_from};
ghost use Rattle.text_rows.specs.Rows.{is_taken, sort_added, sort_row};
ghost use Rattle.text_rows.specs.View.{kept_of, taken_of, taken_in, Bounded, Within};

use text_rows::{BadRow, Counts, Row};

// A sort row that is good.
#[tactic(auto, using(text_rows::proofs::Fields::short_at))]
fn put_sort(counts: Counts, fields: &[&[u8]; 3], names: &mut [u8; 55392]) -> Row
    requires bounded { Bounded counts }
    requires room { counts.sorts < 32 }
    requires good { shape_of 3 0 (contents fields.now) ≡ Ok tt }
    requires fresh { is_taken (names_from names.old 0 counts.sorts) (get_or (contents fields.now) 0 []) ≡ false }
    ensures names_after { taken_of result names.new ≡ sort_added (kept_of counts names.old) (contents fields.now) }
    ensures within { Within result }
{
    let n = counts.sorts;
    let index = text_rows::sort_ref(names, n, fields[1]);
    let value = text_rows::sort_ref(names, n, fields[2]);
    text_names::put_name(names, 0, n, fields[0]);
    Row {
        counts: Counts {
            sorts: n + 1,
            ..counts
        },
        cells: [index, value, 0, 0, 0, 0, 0, 0, 0],
        width: 2,
    }
}

// A line of the sort sheet.
#[tactic(auto, using(text_names::proofs::Table::length_names, text_rows::proofs::Fields::contents_at), unfolding(text_rows::specs::Rows::sort_row))]
pub fn sort_row(counts: Counts, line: &[u8], names: &mut [u8; 55392]) -> Result<Row, BadRow>
    requires { Bounded counts }
    ensures names_after { taken_in counts result names.new ≡ sort_row (kept_of counts names.old) (pieces 32 line.now) }
    ensures within { IfOk result Within }
{
    let mut fields = [line; 3];
    text_columns::check_line(line, 0, &mut fields).map_err(BadRow::Malformed)?;
    if counts.sorts >= 32 {
        return Err(BadRow::Ceiling);
    }
    if text_rows::is_taken(names, 0, counts.sorts, fields[0]) {
        return Err(BadRow::Name);
    }
    Ok(put_sort(counts, &fields, names))
}
