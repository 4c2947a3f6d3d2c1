// No rules, and those that are held as a slice.
ghost use Rattle.std.specs.Prelude.{◌≡◌, []};
ghost use Rattle.rule_match.specs.Held.{rules_of};

use crate::Rules;
use model::Rule;

// No rules.
pub fn none() -> Rules
    ensures { (rules_of result ≡ []) × (result.count ≡ 0) }
{
    let items = [Rule {
        first: 0,
        predicate: 0,
        second: 0,
    }; model::MOST_RULES];
    Rules { items, count: 0 }
}

impl Rules {
    // The rules that are held.
    pub fn as_slice(&self) -> &[Rule]
        ensures { result.now ≡ rules_of self.now }
    {
        &self.items[..self.count]
    }
}
