// From premises through several layers of not, and, or to the value of the formula above them: deep.
// What the walk has found of a row is remembered, so that each row of a formula is walked once, however many rows share it.
#![tactic(auto)]

ghost use Rattle.std.specs.Prelude.{◌≡◌, ◌≢◌, true, false, cond, List, [], ◌∷◌, ◌+◌, ◌*◌, ◌/◌, ◌≤◌, ◌<◌, leb, get_or, reverse};
ghost use Rattle.std.specs.List.{fold};
ghost use Rattle.calculus.specs.declared.Premise.{Premise};
ghost use Rattle.calculus.specs.declared.Rule.TheVariants.{Deep};
ghost use Rattle.calculus.specs.Terms.{args_of};
ghost use Rattle.calculus.specs.Rules.{is_connective, layers, is_premise, premise_value};
ghost use Rattle.rule_claims.specs.Claims.{stated, premises_of, allows};
ghost use Rattle.rule_deep.specs.Walks.{marked, same_row, premised, unpacked, no_argument, connected, joined, chain, recalled};
ghost use Rattle.rule_deep.specs.Walks.{Small, Says, Empty, Noted, Notes, Remembered, Knows, WalksRow, WalksArgs};

use calculus::{Premise, Row, Term};
use rows::{BLANK, term_at};
use rule_claims::{AND, Claim, NOT, OR};

// How many connectives may lie on a path.
const LAYERS: u16 = 8;

// What a walk finds: how many connectives lie on its longest path, which premises it meets, premise j as bit j, and whether the row is true that it
// starts from, or that has the rows it starts from as its arguments.
#[derive(Clone, Copy)]
pub struct Walked {
    pub height: u16,
    pub met: u16,
    pub truth: bool,
}

// ---- what is found, as one number, which is never 0
// Stays: 0 where nothing is found, and not an Option, since 256 such numbers lie in the memory of a walk, of which each is 16 bits.

// What the number c says.
fn unpacked(c: u16) -> Walked
    ensures { result ≡ unpacked c }
{
    Walked {
        height: c / 4 % 16,
        met: c / 64,
        truth: c / 2 % 2 == 1,
    }
}

// The number that says r.
fn packed(r: Walked) -> u16
    requires { Small r }
    ensures { (unpacked result ≡ r) × (result ≢ 0) }
{
    r.met * 64 + r.height * 4 + u16::from(r.truth) * 2 + 1
}

// What is found of a row on which there are the premises m, of which the first gives it the value v; 0 where there are none.
fn premised(m: u16, v: u16) -> u16
    requires { m ≤ 31 }
    ensures { result ≡ premised m v }
{
    if m == 0 {
        return 0;
    }
    m * 64 + u16::from(v == 1) * 2 + 1
}

// ---- premises by their row

// The premises on row t, as bits: premise p in front of the rest.
fn more_marks(p: Premise, t: Row, rest: u16) -> u16
    requires { rest ≤ 15 }
    ensures { (result ≤ rest * 2 + 1)
        × ((ps : List Premise) → rest ≡ marked (same_row t.0) (stated ps) → result ≡ marked (same_row t.0) (stated (p ∷ ps))) }
{
    if p.row == BLANK {
        return 0;
    }
    if p.row == t.0 { rest * 2 + 1 } else { rest * 2 }
}

// The premises on row t, as bits.
fn marks(x: Claim, t: Row) -> u16
    ensures { result ≡ marked (same_row t.0) (premises_of x) }
{
    let e = more_marks(x.t, t, 0);
    let d = more_marks(x.s, t, e);
    let c = more_marks(x.r, t, d);
    let b = more_marks(x.q, t, c);
    more_marks(x.p, t, b)
}

// The value of row t by the premises: premise p in front of the rest.
fn more_value(p: Premise, t: Row, rest: u16) -> u16
    ensures { (ps : List Premise) → rest ≡ premise_value (stated ps) t.0 → result ≡ premise_value (stated (p ∷ ps)) t.0 }
{
    if p.row == BLANK {
        return 0;
    }
    if p.row == t.0 { p.value } else { rest }
}

// The value that the first premise on row t gives it; 0 where there is none.
fn value_on(x: Claim, t: Row) -> u16
    ensures { result ≡ premise_value (premises_of x) t.0 }
{
    let e = more_value(x.t, t, 0);
    let d = more_value(x.s, t, e);
    let c = more_value(x.r, t, d);
    let b = more_value(x.q, t, c);
    more_value(x.p, t, b)
}

// ---- what is remembered of the first 256 rows

// Premise p is noted, as this bit.
fn note(memo: &mut [u16; 256], p: Premise, bit: u16)
    requires { get_or memo.old p.row 0 / 64 + bit ≤ 31 }
    ensures { Noted memo.old memo.new p bit }
{
    if p.row < 256 {
        let i = p.row as usize;
        memo[i] = (memo[i] / 64 + bit) * 64 + u16::from(p.value == 1) * 2 + 1;
    }
}

// The premise of column t is noted, where there is one; and those from column s, r, q, p on. The answer has a bit for each of them.
// Stays: a function for each column, the last of which is noted first; one loop over them made every other log dearer, and those by deep no faster.
fn note_t(memo: &mut [u16; 256], x: Claim) -> u16
    requires { Empty memo.old }
    ensures { Notes 16 (stated (x.t ∷ [])) memo.new result }
{
    if x.t.row == BLANK {
        return 0;
    }
    note(memo, x.t, 16);
    16
}

fn note_s(memo: &mut [u16; 256], x: Claim) -> u16
    requires { Empty memo.old }
    ensures { Notes 8 (stated (x.s ∷ x.t ∷ [])) memo.new result }
{
    if x.s.row == BLANK {
        return 0;
    }
    let m = note_t(memo, x);
    note(memo, x.s, 8);
    m + 8
}

fn note_r(memo: &mut [u16; 256], x: Claim) -> u16
    requires { Empty memo.old }
    ensures { Notes 4 (stated (x.r ∷ x.s ∷ x.t ∷ [])) memo.new result }
{
    if x.r.row == BLANK {
        return 0;
    }
    let m = note_s(memo, x);
    note(memo, x.r, 4);
    m + 4
}

fn note_q(memo: &mut [u16; 256], x: Claim) -> u16
    requires { Empty memo.old }
    ensures { Notes 2 (stated (x.q ∷ x.r ∷ x.s ∷ x.t ∷ [])) memo.new result }
{
    if x.q.row == BLANK {
        return 0;
    }
    let m = note_r(memo, x);
    note(memo, x.q, 2);
    m + 2
}

fn note_all(memo: &mut [u16; 256], x: Claim) -> u16
    requires { Empty memo.old }
    ensures { Notes 1 (premises_of x) memo.new result }
{
    if x.p.row == BLANK {
        return 0;
    }
    let m = note_q(memo, x);
    note(memo, x.p, 1);
    m + 1
}

// What is known of row t; of a row from 256 on, only whether it is a premise.
fn recall(memo: &[u16; 256], x: Claim, t: Row) -> u16
    ensures { result ≡ recalled (premises_of x) memo.now t.0 }
{
    if t.0 < 256 {
        return memo[t.0 as usize];
    }
    premised(marks(x, t), value_on(x, t))
}

// Of this row, c is remembered.
fn remember(memo: &mut [u16; 256], row: Row, c: u16)
    ensures { Remembered memo.old memo.new row.0 c }
{
    if row.0 < 256 {
        memo[row.0 as usize] = c;
    }
}

// ---- what a connective makes of its arguments

// Whether h is the head of a connective.
fn is_connective(h: u16) -> bool
    ensures { result ≡ is_connective h }
{
    (h == NOT) | ((h == AND) | (h == OR))
}

// What the connective h makes of the truth of an argument and of what it makes of the rest.
fn connected(h: u16, a: bool, rest: bool) -> bool
    ensures { result ≡ connected h a rest }
{
    if h == NOT {
        return !a;
    }
    if h == AND { a & rest } else { a | rest }
}

// An argument under the connective h, of which r was found, in front of the rest.
fn joined(h: u16, r: Walked, rest: Walked) -> Walked
    ensures { result ≡ joined h r rest }
{
    Walked {
        height: r.height.max(rest.height),
        met: r.met | rest.met,
        truth: connected(h, r.truth, rest.truth),
    }
}

// No argument under the connective h.
fn none(h: u16) -> Walked
    ensures { result ≡ no_argument h }
{
    Walked {
        height: 0,
        met: 0,
        truth: !(h == OR),
    }
}

// The arguments of which the numbers cs say what was found.
#[inline(always)]
fn chain(h: u16, cs: &[u16]) -> Walked
    ensures { result ≡ fold (λ rest c. joined h (unpacked c) rest) (no_argument h) (reverse cs.now) }
{
    cs.iter()
        .rev()
        .fold(none(h), |rest, c| joined(h, unpacked(*c), rest))
}

// The number that says r, which was found with the number of the last argument; 0 where that is.
fn said(last: u16, r: Walked) -> u16
    requires { last ≢ 0 → Small r }
    ensures { Says r last result }
{
    if last == 0 {
        return 0;
    }
    packed(r)
}

// ---- the walk; its answer is 0 where a path leads to a leaf that is no premise, or through too many connectives

// What c says, if no more than `left` connectives lie on a path; 0 if more do.
fn within(c: u16, left: u16) -> u16
    ensures { result ≡ cond (leb (unpacked c).height left) c 0 }
{
    if c / 4 % 16 <= left { c } else { 0 }
}

// The walk down from row t, of which nothing is known, through at most `left` connectives. It stops at the first path that leads nowhere.
#[cycle(walk_walk_args)]
fn walk(terms: &[u16], x: Claim, memo: &mut [u16; 256], t: Row, left: u16) -> u16
    requires { (left ≤ layers) × (is_premise (premises_of x) t.0 ≡ false) × Knows terms.now (premises_of x) memo.old }
    ensures { WalksRow terms.now (premises_of x) memo.new left t.0 result }
{
    let e = term_at(terms, t);
    if (left == 0) | !is_connective(e.head) {
        return 0;
    }
    let below = walk_args(terms, x, memo, e, left - 1);
    if below == 0 {
        return 0;
    }
    let r = below + 4;
    remember(memo, t, r);
    r
}

// What is known of row t, or else the walk down from it, through at most `left` connectives.
#[cycle(walk_walk_args)]
#[inline(always)]
fn found(terms: &[u16], x: Claim, memo: &mut [u16; 256], t: Row, left: u16) -> u16
    requires { (left ≤ layers) × Knows terms.now (premises_of x) memo.old }
    ensures { WalksRow terms.now (premises_of x) memo.new left t.0 result }
{
    let known = recall(memo, x, t);
    if known == 0 {
        return walk(terms, x, memo, t, left);
    }
    within(known, left)
}

// The walks down from the arguments of a term, each through at most `left` connectives.
#[cycle(walk_walk_args)]
fn walk_args(terms: &[u16], x: Claim, memo: &mut [u16; 256], e: Term, left: u16) -> u16
    requires { (left ≤ layers) × (is_connective e.head ≡ true) × Knows terms.now (premises_of x) memo.old }
    ensures { WalksArgs terms.now (premises_of x) memo.new left e.head (args_of e) result }
{
    let h = e.head;
    if e.a == BLANK {
        return packed(none(h));
    }
    let a = found(terms, x, memo, Row(e.a), left);
    if (a == 0) | (e.b == BLANK) {
        return said(a, chain(h, &[a]));
    }
    let b = found(terms, x, memo, Row(e.b), left);
    if (b == 0) | (e.c == BLANK) {
        return said(b, chain(h, &[a, b]));
    }
    let c = found(terms, x, memo, Row(e.c), left);
    if (c == 0) | (e.d == BLANK) {
        return said(c, chain(h, &[a, b, c]));
    }
    let d = found(terms, x, memo, Row(e.d), left);
    said(d, chain(h, &[a, b, c, d]))
}

// Whether the walk down from the claim's term gives it the claim's value and meets every premise.
pub fn deep(terms: &[u16], x: Claim) -> bool
    ensures { result ≡ allows terms.now Deep x }
{
    let mut memo = [0u16; 256];
    let all = note_all(&mut memo, x);
    let own = recall(&memo, x, x.term);
    if own != 0 {
        return (own / 64 == all) & (x.value == value_on(x, x.term));
    }
    let c = walk(terms, x, &mut memo, x.term, LAYERS);
    if c == 0 {
        return false;
    }
    let r = unpacked(c);
    (r.met == all) & (x.value == u16::from(r.truth))
}
