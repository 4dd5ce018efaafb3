// Rows of the term sheet and of the step sheet, read into structs by value.
#![tactic(auto)]

ghost use Rattle.std.specs.Prelude.{◌≡◌, ◌+◌, ◌*◌, ◌≤◌, length, get_or};
ghost use Rattle.calculus.specs.Terms.{term_at};
ghost use Rattle.calculus.specs.Steps.{step_at};
ghost use Rattle.rows.specs.Rows.{Whole};

use calculus::{Row, Step, Term};

// What a column holds where nothing is filled in.
// Stays: a number in place of an Option, since a sheet is lent through the C interface with this number in it, and `filled` and `blank` of the calculus
// say what it means there.
pub const BLANK: u16 = 65535;

// The number at i; 0 past the end.
pub fn cell(sheet: &[u16], i: usize) -> u16
    ensures { result ≡ get_or sheet.now i 0 }
{
    sheet.get(i).copied().unwrap_or(0)
}

// Row t of the term sheet, which holds it whole.
pub fn whole_term_at(terms: &[u16], t: Row) -> Term
    requires { Whole terms.now t.0 }
    ensures { result ≡ term_at terms.now t.0 }
{
    let i = t.0 as usize * 6;
    Term {
        head: terms[i],
        sort: terms[i + 1],
        a: terms[i + 2],
        b: terms[i + 3],
        c: terms[i + 4],
        d: terms[i + 5],
    }
}

// Row t of the term sheet; 0 in every column past its end.
pub fn term_at(terms: &[u16], t: Row) -> Term
    ensures { result ≡ term_at terms.now t.0 }
{
    let i = t.0 as usize * 6;
    // A whole row, as in every sheet that passed, takes one test of the length.
    if i + 5 < terms.len() {
        return whole_term_at(terms, t);
    }
    Term {
        head: cell(terms, i),
        sort: cell(terms, i + 1),
        a: cell(terms, i + 2),
        b: cell(terms, i + 3),
        c: cell(terms, i + 4),
        d: cell(terms, i + 5),
    }
}

// Row n of the step sheet.
pub fn step_at(log: &[u16], n: usize) -> Step
    requires { n * 9 + 9 ≤ length log.now }
    ensures { result ≡ step_at log.now n }
{
    let i = n * 9;
    Step {
        step: log[i],
        rule: log[i + 1],
        term: log[i + 2],
        value: log[i + 3],
        p: log[i + 4],
        q: log[i + 5],
        r: log[i + 6],
        s: log[i + 7],
        t: log[i + 8],
    }
}
