// Rule sets, and which labels a rule pairs.
#![tactic(auto)]

ghost use Rattle.std.specs.Prelude.{◌≡◌, ◌≤◌};
ghost use Rattle.model.specs.Limits.{most_rules};
ghost use Rattle.model.specs.Rules.{label, stands, matches};

mod held;

pub use held::none;
use model::Rule;

// Rules, as many as a file can have.
#[derive(Clone, Copy)]
pub struct Rules {
    pub items: [Rule; model::MOST_RULES],
    pub count: usize,
    pub ghost within: { count ≤ most_rules },
}

// Whether epochs t and u stand in the relation of a predicate.
#[tactic(auto, unfolding(model::specs::Rules::stands))]
fn epochs_stand(p: u16, t: u32, u: u32) -> bool
    ensures { result ≡ stands p t u }
{
    match p {
        0 => t == u,
        1 => t > u,
        2 => t < u,
        _ => false,
    }
}

// Whether a rule pairs the label (n, t) with the label (m, u).
#[tactic(auto, unfolding(model::specs::Rules::matches))]
pub fn matches(rule: Rule, n: u16, t: u32, m: u16, u: u32) -> bool
    ensures { result ≡ matches rule (label n t) (label m u) }
{
    n == rule.first && m == rule.second && epochs_stand(rule.predicate, t, u)
}
