// The types that the code, the contracts and the definitions share, and the numbers that stand for them. specs/ has the calculus as definitions.
#![tactic(auto)]

ghost use Rattle.std.specs.Prelude.{◌≡◌};
ghost use Rattle.calculus.specs.Numbers.{number, place};
ghost use Rattle.calculus.specs.Terms.{head_of};
ghost use Rattle.calculus.specs.Rules.{rule_of};
ghost use Rattle.calculus.specs.Steps.{kind_of};
ghost use Rattle.calculus.specs.Run.{verdict_number};

// A row of the term sheet, counted from 0.
#[derive(Clone, Copy, PartialEq, Eq, PartialOrd, Ord)]
pub struct Row(pub u16);

// A sort: 0 is prop, and the rows of the sort sheet follow, counted from 1.
#[derive(Clone, Copy, PartialEq, Eq, PartialOrd, Ord)]
pub struct Sort(pub u16);

// A level of the trail (Definition 5 of the CADE 2017 paper): 0 for the input, 1 plus the greatest level before it for a decision, the greatest
// in its justification for any other entry.
#[derive(Clone, Copy, PartialEq, Eq, PartialOrd, Ord)]
pub struct Level(pub u64);

// A row of the term sheet as it stands there: an argument is a row number or blank.
#[derive(Clone, Copy)]
pub struct Term {
    pub head: u16,
    pub sort: u16,
    pub a: u16,
    pub b: u16,
    pub c: u16,
    pub d: u16,
}

// A row of the step sheet as it stands there: a column is a number or blank.
#[derive(Clone, Copy)]
pub struct Step {
    pub step: u16,
    pub rule: u16,
    pub term: u16,
    pub value: u16,
    pub p: u16,
    pub q: u16,
    pub r: u16,
    pub s: u16,
    pub t: u16,
}

// What a term's head is.
#[derive(Clone, Copy, PartialEq, Eq)]
pub enum Head {
    Equality,
    Negation,
    Conjunction,
    Disjunction,
    Select,
    Store,
    Free,
    Unlisted,
}

// The inference rules.
#[derive(Clone, Copy, PartialEq, Eq)]
pub enum Rule {
    Same,
    Differ,
    Reflexivity,
    Symmetry,
    Transitivity,
    Negated,
    Part,
    Unit,
    Evaluation,
    Congruence,
    Predicate,
    Read,
    Skip,
    Deep,
    Unlisted,
}

// The steps of a log.
#[derive(Clone, Copy, PartialEq, Eq)]
pub enum Kind {
    Decide,
    Deduce,
    Clash,
    Resolve,
    Clear,
    Jump,
    Flip,
    Fail,
    Learn,
    Unlisted,
}

// A premise of a rule: a term row with its value on the trail.
#[derive(Clone, Copy)]
pub struct Premise {
    pub row: u16,
    pub value: u16,
}

// Why a sheet, a row or a step is refused. Each has its number (`number` in specs/Numbers), and three of them a place: the column, counted from 1 at
// "step", at which the row went wrong.
#[derive(Clone, Copy, PartialEq, Eq)]
pub enum Refusal {
    // 1: a sort row breaks the rule for sorts.
    Sort,
    // 3: an argument is no earlier row.
    Argument,
    // 4: head, sort and arguments do not fit.
    Term,
    // 5: a row with the head and arguments of an earlier one.
    Repeated,
    // 6: an input row names no term.
    NoTerm,
    // 7: a value that the term cannot have.
    Value,
    // 8: a term given twice.
    GivenTwice,
    // 9: a step's columns are wrong.
    Columns,
    // 10: wrong state for the step.
    State,
    // 11: the term or a premise is no row.
    NoRow(u16),
    // 12: a premise is not on the trail.
    Absent(u16),
    // 13: the rule does not fit.
    Unfit(u16),
    // 14: the value is there already.
    There,
    // 15: the opposite is there.
    OppositeThere,
    // 16: the opposite is not there.
    OppositeMissing,
    // 17: not a member of the conflict.
    NoMember,
    // 18: it is a decision.
    Decision,
    // 19: resolve is barred.
    Barred,
    // 20: not the decision that clear needs.
    OtherDecision,
    // 21: its level is not above the rest, or learn's level is outside its range.
    Level,
    // 22: a term's sort or head is wrong for the step, or the value does not suit it.
    Unsuited,
    // 23: no shared decision.
    NotShared,
    // 25: the clause does not match the members, or one is named twice.
    NoForm,
    // 26: fail is the line at level 0, clash the one above it.
    OtherLine,
    // 27: the value contradicts an equation on the trail.
    Unacceptable,
    // 30: above a ceiling.
    Ceiling,
    // 31: malformed.
    Malformed,
    // 32: a lent buffer is short.
    Short,
}

// How a run ends.
#[derive(Clone, Copy, PartialEq, Eq)]
pub enum Verdict {
    Open,
    Refuted,
    Refused,
}

// What a call answers: the verdict's number, the steps allowed, the number of the refusal or 0, the entries on the trail, and with 11, 12, 13
// the column at which the row went wrong, counted from 1 at "step", else 0.
#[repr(C)]
#[derive(Clone, Copy)]
pub struct Outcome {
    pub verdict: u16,
    pub steps: u16,
    pub number: u16,
    pub entries: u16,
    pub place: u16,
}

// What a number in the head column stands for.
impl From<u16> for Head {
    ghost from_gives = { λ h r. r ≡ head_of h };

    fn from(h: u16) -> Head {
        match h {
            0 => Head::Equality,
            1 => Head::Negation,
            2 => Head::Conjunction,
            3 => Head::Disjunction,
            4 => Head::Select,
            5 => Head::Store,
            16..=65534 => Head::Free,
            _ => Head::Unlisted,
        }
    }
}

// What a number in the rule column stands for.
impl From<u16> for Rule {
    ghost from_gives = { λ n r. r ≡ rule_of n };

    #[tactic(auto, unfolding(crate::specs::Rules::rule_of))]
    fn from(n: u16) -> Rule {
        match n {
            0 => Rule::Same,
            1 => Rule::Differ,
            2 => Rule::Reflexivity,
            3 => Rule::Symmetry,
            4 => Rule::Transitivity,
            5 => Rule::Negated,
            6 => Rule::Part,
            7 => Rule::Unit,
            8 => Rule::Evaluation,
            9 => Rule::Congruence,
            10 => Rule::Predicate,
            11 => Rule::Read,
            12 => Rule::Skip,
            13 => Rule::Deep,
            _ => Rule::Unlisted,
        }
    }
}

// What a number in the step column stands for.
impl From<u16> for Kind {
    ghost from_gives = { λ n r. r ≡ kind_of n };

    #[tactic(auto, unfolding(crate::specs::Steps::kind_of))]
    fn from(n: u16) -> Kind {
        match n {
            0 => Kind::Decide,
            1 => Kind::Deduce,
            2 => Kind::Clash,
            3 => Kind::Resolve,
            4 => Kind::Clear,
            5 => Kind::Jump,
            6 => Kind::Flip,
            7 => Kind::Fail,
            8 => Kind::Learn,
            _ => Kind::Unlisted,
        }
    }
}

// The number of a refusal.
impl From<Refusal> for u16 {
    ghost from_gives = { λ r n. n ≡ number r };

    fn from(r: Refusal) -> u16 {
        match r {
            Refusal::Sort => 1,
            Refusal::Argument => 3,
            Refusal::Term => 4,
            Refusal::Repeated => 5,
            Refusal::NoTerm => 6,
            Refusal::Value => 7,
            Refusal::GivenTwice => 8,
            Refusal::Columns => 9,
            Refusal::State => 10,
            Refusal::NoRow(_) => 11,
            Refusal::Absent(_) => 12,
            Refusal::Unfit(_) => 13,
            Refusal::There => 14,
            Refusal::OppositeThere => 15,
            Refusal::OppositeMissing => 16,
            Refusal::NoMember => 17,
            Refusal::Decision => 18,
            Refusal::Barred => 19,
            Refusal::OtherDecision => 20,
            Refusal::Level => 21,
            Refusal::Unsuited => 22,
            Refusal::NotShared => 23,
            Refusal::NoForm => 25,
            Refusal::OtherLine => 26,
            Refusal::Unacceptable => 27,
            Refusal::Ceiling => 30,
            Refusal::Malformed => 31,
            Refusal::Short => 32,
        }
    }
}

impl Refusal {
    // The column at which the row went wrong, 0 where the refusal is of no single one.
    pub fn place(self) -> u16
        ensures { result ≡ place self }
    {
        match self {
            Refusal::NoRow(column) | Refusal::Absent(column) | Refusal::Unfit(column) => column,
            _ => 0,
        }
    }
}

// The number of a verdict.
impl From<Verdict> for u16 {
    ghost from_gives = { λ v n. n ≡ verdict_number v };

    fn from(v: Verdict) -> u16 {
        match v {
            Verdict::Open => 0,
            Verdict::Refuted => 1,
            Verdict::Refused => 2,
        }
    }
}
