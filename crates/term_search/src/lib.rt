// What is sought among the term rows: the first row with a head, and the first row that repeats an earlier one (number 5).
#![tactic(auto)]

ghost use Rattle.std.specs.Prelude.{◌≡◌, not, ◌+◌, ◌*◌, ◌<◌, ◌≤◌, length};
ghost use Rattle.calculus.specs.Terms.{head};
ghost use Rattle.rows.specs.Rows.{Whole};
ghost use Rattle.term_search.specs.Found.{FirstUse, FirstRepeat, Noted, Linked, noted, least, mix, most_rows, agree};

use calculus::Row;
use rows::BLANK;

// ---- the first row with a head

// Row t, whose key is k, is noted in the key's slot. The least row of that slot is returned, row t among them.
#[tactic(auto, unfolding(crate::specs::Found::noted))]
fn note(slots: &mut [u16; 1024], k: u16, t: Row) -> Row
    ensures slots_after { slots.new ≡ noted slots.old k t.0 }
    ensures result_value { result.0 ≡ least slots.old k t.0 }
{
    let s = usize::from(k % 1024);
    let u = slots[s].min(t.0);
    slots[s] = u;
    Row(u)
}

// The first row with the head of row t. The rows before t are noted by their heads, and then row t is.
#[tactic(auto, using(crate::proofs::Laws::use_low, crate::proofs::Laws::use_before, crate::proofs::Laws::use_found, crate::proofs::Laws::use_none, crate::proofs::Laws::use_other, crate::proofs::Laws::use_noted))]
pub fn first_use(slots: &mut [u16; 1024], terms: &[u16], t: Row) -> Row
    requires { Whole terms.now t.0 × Noted (head terms.now) t.0 slots.old }
    ensures first_use { FirstUse terms.now t.0 result.0 }
    ensures noted { Noted (head terms.now) (t.0 + 1) slots.new }
{
    let h = terms[t.0 as usize * 6];
    // Rows before the least one in the slot of the head have another head.
    let from = note(slots, h, t);
    for u in from.0..t.0 {
        if terms[u as usize * 6] == h {
            return Row(u);
        }
    }
    t
}

// ---- the first row that repeats an earlier one

// Whether rows t and u differ in the k-th of the columns that rows are compared by: the arguments, then the head.
fn differ(terms: &[u16], t: Row, u: Row, k: usize) -> bool
    requires { Whole terms.now t.0 × (u.0 < t.0) × (k < 5) }
    ensures { result ≡ not (agree terms.now t.0 u.0 k) }
{
    let j = if k == 4 { 0 } else { k + 2 };
    terms[usize::from(t.0) * 6 + j] != terms[usize::from(u.0) * 6 + j]
}

// The mix of row t, of its head and its four arguments: the key that equal rows are sought by.
#[tactic(auto, unfolding(crate::specs::Found::mix))]
fn mix_of(terms: &[u16], t: Row) -> u32
    requires { Whole terms.now t.0 }
    ensures { result ≡ mix terms.now t.0 }
{
    let e = rows::whole_term_at(terms, t);
    u32::from(e.head)
        + 3 * u32::from(e.a)
        + 5 * u32::from(e.b)
        + 7 * u32::from(e.c)
        + 11 * u32::from(e.d)
}

// Row t, whose key is k, is chained to the last row of the key's slot, which is returned: BLANK where there is none.
// Stays: fixed memory, two bytes a slot; BLANK is above each row, so that one comparison with row t ends the search of a slot.
fn chain(lasts: &mut [u16; 1024], backs: &mut [u16; 256], k: u32, t: Row) -> u16
    requires { t.0 < most_rows }
    ensures { Linked lasts.old lasts.new backs.old backs.new k t.0 result }
{
    let s = (k % 1024) as usize;
    let u = lasts[s];
    lasts[s] = t.0;
    backs[usize::from(t.0)] = u;
    u
}

// The first of the first n rows with the same head and arguments as an earlier one; n where there is none.
#[tactic(auto, using(crate::proofs::Laws::columns_agree, crate::proofs::Laws::repeat_none))]
pub fn first_repeat(terms: &[u16], n: u16) -> Row
    requires { (n ≤ most_rows) × (n * 6 ≤ length terms.now) }
    ensures { FirstRepeat terms.now n result.0 }
{
    let mut lasts = [BLANK; 1024];
    let mut backs = [BLANK; 256];
    let mut t: u16 = 0;
    // Stays: document 01 asks here for labelled nested loops, left from within.
    'rows: while t < n {
        // Rows in another slot than row t have another mix, so that they differ from it; those in its slot are compared, the last one first.
        let mut u = chain(&mut lasts, &mut backs, mix_of(terms, Row(t)), Row(t));
        'pairs: while u < t {
            for k in 0..5 {
                if differ(terms, Row(t), Row(u), k) {
                    u = backs[u as usize];
                    continue 'pairs;
                }
            }
            break 'rows;
        }
        t += 1;
    }
    Row(t)
}
