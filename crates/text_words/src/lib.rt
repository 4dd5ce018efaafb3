// The words of heads and steps, and where one stands in its list.
#![tactic(auto)]

ghost use Rattle.std.specs.Prelude.{◌≡◌};
ghost use Rattle.text_fields.specs.Words.{step_words, head_words, index_from, ref_of};

// Where a head's word stands among the heads that are not free.
pub fn find_head(f: &[u8]) -> Option<usize>
    ensures { result ≡ index_from 0 head_words f.now }
{
    match f {
        b"eq" => Some(0),
        b"not" => Some(1),
        b"and" => Some(2),
        b"or" => Some(3),
        b"select" => Some(4),
        b"store" => Some(5),
        _ => None,
    }
}

// Where a step's word stands among the words of the steps.
fn find_step(f: &[u8]) -> Option<u16>
    ensures { result ≡ index_from 0 step_words f.now }
{
    match f {
        b"decide" => Some(0),
        b"deduce" => Some(1),
        b"clash" => Some(2),
        b"resolve" => Some(3),
        b"clear" => Some(4),
        b"jump" => Some(5),
        b"flip" => Some(6),
        b"fail" => Some(7),
        b"learn" => Some(8),
        _ => None,
    }
}

// The number of a step's word.
#[tactic(auto, unfolding(text_fields::specs::Words::ref_of))]
pub fn step_number(f: &[u8]) -> u16
    ensures { result ≡ ref_of step_words f.now }
{
    match f {
        b"-" => 65535,
        _ => find_step(f).unwrap_or(65534),
    }
}
