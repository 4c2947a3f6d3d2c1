// Rules held in order, each once, and the set of a number.
#![tactic(auto)]

ghost use Rattle.std.specs.Prelude.{◌≡◌, cond, ◌∷◌, ◌++◌, ◌+◌, ◌<◌, ◌≤◌, take, drop, length, take_while};
ghost use Rattle.relation.specs.Bits.{bit};
ghost use Rattle.model.specs.Limits.{most_rules, most_candidates};
ghost use Rattle.model.specs.Find.{before, inserted, picked};
ghost use Rattle.rule_match.specs.Held.{rules_of};
ghost use Rattle.find_sets.specs.Kept.{Follows};

use model::Rule;
use rule_match::Rules;

// Whether a comes before b: by first name, second name, predicate.
#[tactic(auto, unfolding(model::specs::Find::before))]
pub fn comes_before(a: Rule, b: Rule) -> bool
    ensures { result ≡ before a b }
{
    (a.first, a.second, a.predicate) < (b.first, b.second, b.predicate)
}

// How many of the rules held, from the front on, come before a rule.
fn place(c: &Rules, rule: Rule) -> usize
    ensures place { result ≡ length (take_while (λ q. before q rule) (rules_of c.now)) }
    ensures most { result ≤ c.now.count }
{
    let held = &c.items[..c.count];
    held.iter()
        .take_while(|held| comes_before(**held, rule))
        .count()
}

// A rule put behind the first k. (Not by `rotate_right`: the library would need memmove from outside.)
fn splice(c: &mut Rules, k: usize, rule: Rule)
    requires { (c.old.count < most_rules) × (k ≤ c.old.count) }
    ensures { (rules_of c.new ≡ take k (rules_of c.old) ++ (rule ∷ drop k (rules_of c.old))) × (c.new.count ≡ c.old.count + 1) }
{
    let held = c.items;
    c.items[k] = rule;
    c.items[k + 1..c.count + 1].copy_from_slice(&held[k..c.count]);
    c.count += 1;
}

// A rule put in its place, once. Of more rules than there may be candidates nothing more is kept.
pub fn insert(c: &mut Rules, rule: Rule)
    requires { c.old.count ≤ most_candidates + 1 }
    ensures { (c.new.count ≤ most_candidates + 1) × Follows (inserted rule) c.old c.new }
{
    if model::MOST_CANDIDATES < c.count {
        return;
    }
    let k = place(c, rule);
    if k < c.count && !comes_before(rule, c.items[k]) {
        return;
    }
    splice(c, k, rule);
}

// The set of a number.
pub fn pick(c: Rules, m: u64) -> Rules
    ensures { (rules_of result ≡ picked (rules_of c) m) × (result.count ≤ c.count) }
{
    let mut items = c.items;
    let mut n: usize = 0;
    for (i, rule) in c.items[..c.count].iter().enumerate() {
        // a rule that is not in the set is written over
        items[n] = *rule;
        n += usize::from(relation::has_bit(m, i));
    }
    Rules { items, count: n }
}
