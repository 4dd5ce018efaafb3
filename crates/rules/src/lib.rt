// The fourteen rules: whether a rule gives a term its value, from premises that come with their values on the trail.
// Each rule is a function of its own, in the crate of its family; `fits` takes the one that a row names.
#![tactic(auto)]

ghost use Rattle.std.specs.Prelude.{◌≡◌};
ghost use Rattle.rule_claims.specs.Claims.{allows};

use calculus::Rule;
use rule_arrays::{read, skip};
use rule_claims::Claim;
use rule_connectives::{neg, part};
use rule_deep::deep;
use rule_equality::{differ, refl, same, sym, trans};
use rule_evaluation::eval;
use rule_functions::{cong, pred};
use rule_units::unit;

// Whether the rule gives the claim's term its value from the claim's premises.
#[tactic(auto, unfolding(calculus::specs::Rules::fits))]
pub fn fits(terms: &[u16], rule: Rule, x: Claim) -> bool
    ensures { result ≡ allows terms.now rule x }
{
    match rule {
        Rule::Same => same(terms, x),
        Rule::Differ => differ(terms, x),
        Rule::Reflexivity => refl(terms, x),
        Rule::Symmetry => sym(terms, x),
        Rule::Transitivity => trans(terms, x),
        Rule::Negated => neg(terms, x),
        Rule::Part => part(terms, x),
        Rule::Unit => unit(terms, x),
        Rule::Evaluation => eval(terms, x),
        Rule::Congruence => cong(terms, x),
        Rule::Predicate => pred(terms, x),
        Rule::Read => read(terms, x),
        Rule::Skip => skip(terms, x),
        Rule::Deep => deep(terms, x),
        Rule::Unlisted => false,
    }
}
