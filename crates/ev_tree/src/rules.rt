ghost use Rattle.std.specs.Prelude.{◌≡◌, ℕ, List, Bool};
ghost use Rattle.ev_tree.specs.Rules.{least, is_name, IsAscending, IsLeast};

use crate::limits::MAX_NAME_BYTES;
use ev_types::Rule;

/// The first rule of a list that is broken: each entry is a rule and whether it is broken. In
/// a list in ascending order it is the least.
pub fn least(rules: &[(Rule, bool)]) -> Option<Rule>
    ensures { result ≡ least rules.now }
{
    for (rule, broken) in rules {
        if *broken {
            return Some(*rule);
        }
    }
    None
}

/// Whether a text has 1 to 512 bytes, as a name or an address has.
pub fn is_name(text: &str) -> bool
    ensures { result ≡ is_name text.now }
{
    1 <= text.len() && text.len() <= MAX_NAME_BYTES
}

/// In a list in ascending order the first broken rule is the least: a law of the definition `least`.
pub fn first_is_least()
    ensures { (rules : List (ℕ × Bool)) → IsAscending rules → IsLeast rules (least rules) }
{}
