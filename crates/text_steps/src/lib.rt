// Rows of inputs and steps.
#![tactic(auto)]

ghost use Rattle.std.specs.Prelude.{◌≡◌, true, [], ◌≤◌, ◌<◌, get_or, IfOk};
ghost use Rattle.text_fields.specs.Split.{pieces, contents};
ghost use Rattle.text_fields.specs.Shape.{shape_of};
ghost use Rattle.text_rows.specs.Rows.{input_row, step_cells, step_row};
ghost use Rattle.text_rows.specs.View.{kept_of, taken_in, Bounded, Within};

use text_rows::{BadRow, Counts, Row};

// A line of the input sheet: a term and a value.
#[tactic(auto, using(text_rows::proofs::Fields::contents_at, text_rows::proofs::Fields::valued_at), unfolding(text_rows::specs::Rows::input_row))]
pub fn input_row(counts: Counts, line: &[u8], names: &[u8; 55392]) -> Result<Row, BadRow>
    requires { Bounded counts }
    ensures row_taken { taken_in counts result names.now ≡ input_row (kept_of counts names.now) (pieces 32 line.now) }
    ensures within { IfOk result Within }
{
    let mut fields = [line; 2];
    text_columns::check_line(line, 2, &mut fields).map_err(BadRow::Malformed)?;
    if counts.inputs >= 256 {
        return Err(BadRow::Ceiling);
    }
    let term = text_rows::term_ref(names, counts.terms, fields[0]);
    let given = text_values::known_value(fields[1]);
    Ok(Row {
        counts: Counts {
            inputs: counts.inputs + 1,
            ..counts
        },
        cells: [term, given, 0, 0, 0, 0, 0, 0, 0],
        width: 2,
    })
}

// The nine numbers of a step line: step, rule, term, value, five premises.
#[tactic(auto, using(text_rows::proofs::Fields::contents_at))]
fn step_cells(counts: Counts, fields: &[&[u8]; 9], names: &[u8; 55392]) -> [u16; 9]
    requires terms_bound { counts.terms ≤ 256 }
    requires good { shape_of 9 4 (contents fields.now) ≡ Ok tt }
    ensures { result ≡ step_cells (kept_of counts names.now) (contents fields.now) }
{
    let terms = counts.terms;
    [
        text_words::step_number(fields[0]),
        text_rules::rule_number(fields[1]),
        text_rows::term_ref(names, terms, fields[2]),
        text_values::known_value(fields[3]),
        text_rows::term_ref(names, terms, fields[4]),
        text_rows::term_ref(names, terms, fields[5]),
        text_rows::term_ref(names, terms, fields[6]),
        text_rows::term_ref(names, terms, fields[7]),
        text_rows::term_ref(names, terms, fields[8]),
    ]
}

// A line of the step sheet: a step, a rule, a term, a value, five premises.
#[tactic(auto, unfolding(text_rows::specs::Rows::step_row))]
pub fn step_row(counts: Counts, line: &[u8], names: &[u8; 55392]) -> Result<Row, BadRow>
    requires { Bounded counts }
    ensures row_taken { taken_in counts result names.now ≡ step_row (kept_of counts names.now) (pieces 32 line.now) }
    ensures within { IfOk result Within }
{
    let mut fields = [line; 9];
    text_columns::check_line(line, 4, &mut fields).map_err(BadRow::Malformed)?;
    if counts.steps >= 1024 {
        return Err(BadRow::Ceiling);
    }
    Ok(Row {
        counts: Counts {
            steps: counts.steps + 1,
            ..counts
        },
        cells: step_cells(counts, &fields, names),
        width: 9,
    })
}
