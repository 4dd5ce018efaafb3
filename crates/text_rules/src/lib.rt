// The words of the rules.
#![tactic(auto)]

ghost use Rattle.std.specs.Prelude.{◌≡◌};
ghost use Rattle.text_fields.specs.Words.{rule_words, index_from, ref_of};

// Where a rule's word stands among the words of the rules.
fn find_rule(f: &[u8]) -> Option<u16>
    ensures { result ≡ index_from 0 rule_words f.now }
{
    match f {
        b"same" => Some(0),
        b"differ" => Some(1),
        b"refl" => Some(2),
        b"sym" => Some(3),
        b"trans" => Some(4),
        b"neg" => Some(5),
        b"part" => Some(6),
        b"unit" => Some(7),
        b"eval" => Some(8),
        b"cong" => Some(9),
        b"pred" => Some(10),
        b"read" => Some(11),
        b"skip" => Some(12),
        b"deep" => Some(13),
        _ => None,
    }
}

// The number of a rule's word.
#[tactic(auto, unfolding(text_fields::specs::Words::ref_of))]
pub fn rule_number(f: &[u8]) -> u16
    ensures { result ≡ ref_of rule_words f.now }
{
    match f {
        b"-" => 65535,
        _ => find_rule(f).unwrap_or(65534),
    }
}
