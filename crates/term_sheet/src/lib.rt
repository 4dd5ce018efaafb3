// The rows of the term sheet: numbers 3, 4 and 5.
#![tactic(auto)]

ghost use Rattle.std.specs.Prelude.{◌≡◌, not, ◌≤◌, length, eqb};
ghost use Rattle.calculus.specs.Lists.{all};
ghost use Rattle.calculus.specs.Numbers.{number_in};
ghost use Rattle.calculus.specs.Terms.{cells_of, terms_refusal};
ghost use Rattle.term_suits.specs.Suits.{Known};
ghost use Rattle.term_sheet.specs.Found.{most_numbers, before, placed, row_refusal};

use calculus::{Head, Refusal, Row, Term};
use rows::BLANK;

// Whether every filled argument of row t is an earlier row.
fn all_earlier(e: Term, t: Row) -> bool
    ensures { result ≡ all (before t.0) (cells_of e) }
{
    [e.a, e.b, e.c, e.d]
        .iter()
        .all(|x| (*x == BLANK) | (*x < t.0))
}

// Whether every filled argument of row t is an earlier row, and the arguments are filled from the left. (BLANK is below no row.)
#[tactic(auto, using(std::proofs::lemmas::Bool::Decides::nat_tests))]
fn in_place(e: Term, t: Row) -> bool
    ensures { result ≡ placed t.0 (cells_of e) }
{
    match (e.a, e.b, e.c, e.d) {
        (BLANK, BLANK, BLANK, BLANK) => true,
        (a, BLANK, BLANK, BLANK) => a < t.0,
        (a, b, BLANK, BLANK) => (a < t.0) & (b < t.0),
        (a, b, c, BLANK) => (a < t.0) & (b < t.0) & (c < t.0),
        (a, b, c, d) => (a < t.0) & (b < t.0) & (c < t.0) & (d < t.0),
    }
}

// The number of row t, read as e, where row u is the first to use its head and `twin` is the first row that repeats an earlier one.
#[tactic(auto, unfolding(crate::specs::Found::row_refusal, calculus::specs::Terms::earlier, calculus::specs::Terms::cells, calculus::specs::Numbers::unless))]
fn check_term(
    sorts: &[u16],
    terms: &[u16],
    t: Row,
    e: Term,
    u: Row,
    twin: Row,
) -> Result<(), Refusal>
    requires { Known sorts.now terms.now t.0 e u.0 }
    ensures { number_in result ≡ row_refusal sorts.now terms.now t.0 (not (eqb t.0 twin.0)) }
{
    if !in_place(e, t) {
        return Err(if all_earlier(e, t) {
            Refusal::Term
        } else {
            Refusal::Argument
        });
    }
    if !term_suits::suits_head(sorts, terms, t, e, Head::from(e.head), u) {
        return Err(Refusal::Term);
    }
    if t == twin {
        return Err(Refusal::Repeated);
    }
    Ok(())
}

// Numbers 3, 4, 5: the first term row in trouble decides.
pub fn check_terms(sorts: &[u16], terms: &[u16]) -> Result<(), Refusal>
    requires { length terms.now ≤ most_numbers }
    ensures { number_in result ≡ terms_refusal sorts.now terms.now }
{
    let n = (terms.len() / 6) as u16;
    let twin = term_search::first_repeat(terms, n);
    let mut slots = [BLANK; 1024];
    for t in 0..n {
        let t = Row(t);
        let e = rows::whole_term_at(terms, t);
        let u = term_search::first_use(&mut slots, terms, t);
        check_term(sorts, terms, t, e, u, twin)?;
    }
    Ok(())
}
