// Whether a term row suits its head (number 4): the sorts of its arguments, and the use of a free head.
#![tactic(auto)]

ghost use Rattle.std.specs.Prelude.{◌≡◌, List, ◌∷◌, ℕ, length};
ghost use Rattle.calculus.specs.Terms.{head, prop, filled, cells_of, args_of, head_of, same_use, suits, term_at};
ghost use Rattle.rows.specs.Rows.{Whole};
ghost use Rattle.term_suits.specs.Suits.{all_props, all_plain, same_sorts, equates, connects, Known};

use calculus::{Head, Row, Sort, Term};
use rows::BLANK;

// ---- arguments

// The arguments in these columns: those before the first blank.
fn args(cells: &[u16]) -> &[u16]
    ensures { result.now ≡ filled cells.now }
{
    let n = cells
        .iter()
        .position(|x| *x == BLANK)
        .unwrap_or(cells.len());
    &cells[..n]
}

// How many arguments a row has.
fn count(e: Term) -> usize
    ensures { result ≡ length (args_of e) }
{
    args(&[e.a, e.b, e.c, e.d]).len()
}

// Whether a term is a prop.
fn is_prop(terms: &[u16], t: Row) -> bool
    ensures { result ≡ prop terms.now t.0 }
{
    sheets::sort_of(terms, t) == Sort(0)
}

// Whether all arguments of a row are props.
fn all_props(terms: &[u16], e: Term) -> bool
    ensures { result ≡ all_props terms.now (cells_of e) }
{
    args(&[e.a, e.b, e.c, e.d])
        .iter()
        .all(|a| is_prop(terms, Row(*a)))
}

// Whether no argument of a row is a prop.
fn all_plain(terms: &[u16], e: Term) -> bool
    ensures { result ≡ all_plain terms.now (cells_of e) }
{
    args(&[e.a, e.b, e.c, e.d])
        .iter()
        .all(|a| !is_prop(terms, Row(*a)))
}

// Stays: compared as two slices side by side (`zip`, `all`), a sheet of one head takes 237 instructions a row in place of 150.
// Whether the arguments from columns x and y on are as many and of the same sorts, where `rest` says it of those after them.
fn more_sort(terms: &[u16], x: u16, y: u16, rest: bool) -> bool
    ensures { (xs ys : List ℕ) → rest ≡ same_sorts terms.now xs ys → result ≡ same_sorts terms.now (x ∷ xs) (y ∷ ys) }
{
    if x == y {
        return (x == BLANK) | rest;
    }
    if (x == BLANK) | (y == BLANK) {
        return false;
    }
    (sheets::sort_of(terms, Row(x)) == sheets::sort_of(terms, Row(y))) & rest
}

// ---- the use of a free head

// Whether rows u and t, row u whole and row t read as g, are of one sort, with as many arguments of the same sorts.
#[tactic(auto, unfolding(calculus::specs::Terms::same_use, calculus::specs::Terms::args, calculus::specs::Terms::cells))]
fn same_use(terms: &[u16], u: Row, t: Row, g: Term) -> bool
    requires { (g ≡ term_at terms.now t.0) × Whole terms.now u.0 }
    ensures { result ≡ same_use terms.now u.0 t.0 }
{
    let e = rows::whole_term_at(terms, u);
    let d = more_sort(terms, e.d, g.d, true);
    let c = more_sort(terms, e.c, g.c, d);
    let b = more_sort(terms, e.b, g.b, c);
    let a = more_sort(terms, e.a, g.a, b);
    (e.sort == g.sort) & a
}

// ---- a row's head, sort and arguments

// Whether a row is a prop with enough arguments, all of them props.
fn connective(terms: &[u16], e: Term, enough: bool) -> bool
    ensures { result ≡ connects terms.now e enough }
{
    (e.sort == 0) & enough & all_props(terms, e)
}

// Whether the row suits eq.
fn suits_equality(terms: &[u16], e: Term) -> bool
    ensures { result ≡ equates terms.now e }
{
    let n = count(e);
    let a = sheets::sort_of(terms, Row(e.a));
    let b = sheets::sort_of(terms, Row(e.b));
    (e.sort == 0) & (n == 2) & (a != Sort(0)) & (a == b)
}

// Whether row t, read as e, suits select.
#[tactic(auto, unfolding(calculus::specs::Terms::suits, calculus::specs::Terms::args, calculus::specs::Terms::arg, calculus::specs::Terms::cells))]
fn suits_select(sorts: &[u16], terms: &[u16], t: Row, e: Term) -> bool
    requires { e ≡ term_at terms.now t.0 }
    ensures { result ≡ suits sorts.now terms.now t.0 Head.Select }
{
    let n = count(e);
    let a = sheets::sort_of(terms, Row(e.a));
    let b = sheets::sort_of(terms, Row(e.b));
    let y = sort_sheet::is_array(sorts, a);
    let i = sort_sheet::index_sort(sorts, a);
    let v = sort_sheet::value_sort(sorts, a);
    (n == 2) & y & (b == i) & (Sort(e.sort) == v)
}

// Whether row t, read as e, suits store.
#[tactic(auto, unfolding(calculus::specs::Terms::suits, calculus::specs::Terms::args, calculus::specs::Terms::arg, calculus::specs::Terms::cells))]
fn suits_store(sorts: &[u16], terms: &[u16], t: Row, e: Term) -> bool
    requires { e ≡ term_at terms.now t.0 }
    ensures { result ≡ suits sorts.now terms.now t.0 Head.Store }
{
    let n = count(e);
    let a = sheets::sort_of(terms, Row(e.a));
    let b = sheets::sort_of(terms, Row(e.b));
    let c = sheets::sort_of(terms, Row(e.c));
    let s = Sort(e.sort);
    let y = sort_sheet::is_array(sorts, s);
    let i = sort_sheet::index_sort(sorts, s);
    let v = sort_sheet::value_sort(sorts, s);
    (n == 3) & y & (a == s) & (b == i) & (c == v)
}

// Whether row t, read as e, suits its free head, which row u is the first to use.
// An earlier row suits the head, so that to be used like it is enough.
#[tactic(auto, using(crate::proofs::Laws::free_first, crate::proofs::Laws::free_again), unfolding(calculus::specs::Terms::args, calculus::specs::Terms::cells))]
fn suits_free(sorts: &[u16], terms: &[u16], t: Row, e: Term, u: Row) -> bool
    requires { Known sorts.now terms.now t.0 e u.0 × (head_of (head terms.now t.0) ≡ Head.Free) }
    ensures { result ≡ suits sorts.now terms.now t.0 Head.Free }
{
    if u == t {
        return (usize::from(e.sort) <= sorts.len() / 2) & all_plain(terms, e);
    }
    same_use(terms, u, t, e)
}

// Whether row t, read as e, suits its head k, which row u is the first to use.
#[tactic(auto, unfolding(calculus::specs::Terms::suits, calculus::specs::Terms::args, calculus::specs::Terms::arg, calculus::specs::Terms::cells))]
pub fn suits_head(sorts: &[u16], terms: &[u16], t: Row, e: Term, k: Head, u: Row) -> bool
    requires { Known sorts.now terms.now t.0 e u.0 × (head_of (head terms.now t.0) ≡ k) }
    ensures { result ≡ suits sorts.now terms.now t.0 k }
{
    match k {
        Head::Equality => suits_equality(terms, e),
        Head::Negation => connective(terms, e, count(e) == 1),
        Head::Conjunction | Head::Disjunction => connective(terms, e, 2 <= count(e)),
        Head::Select => suits_select(sorts, terms, t, e),
        Head::Store => suits_store(sorts, terms, t, e),
        Head::Free => suits_free(sorts, terms, t, e, u),
        Head::Unlisted => false,
    }
}
