// An opening of the cache: a cleared state with a file's rules.
#![tactic(auto)]

ghost use Rattle.std.specs.Prelude.{◌≡◌, ◌+◌, ◌<◌, ◌≤◌, length, replicate};
ghost use Rattle.std.proofs.lemmas.List.Edits.{sets};
ghost use Rattle.model.specs.Limits.{most_rules};
ghost use Rattle.model.specs.Rules.{Known};
ghost use Rattle.file_format.specs.Bytes.{wide_rule_bytes};
ghost use Rattle.rule_match.specs.Held.{rules_of};
ghost use Rattle.file_format.specs.File.{wide_rule_length};
ghost use Rattle.cache_model.specs.State.{state_size, opened};
ghost use Rattle.cache_steps.specs.Given.{call_leaves_state, answer_by, opened_by};

use model::{Cause, Rule};
use rule_match::Rules;

// A rule's bytes: the body of its field with names of two bytes.
fn put_rule(state: &mut [u8], at: usize, rule: Rule)
    requires { (at + wide_rule_length ≤ length state.old) × (rule.predicate < 256) }
    ensures { state.new ≡ sets state.old at (wide_rule_bytes rule) }
{
    let predicate = file_writing::put_half(state, at, rule.first);
    let second = file_writing::put(state, predicate, rule.predicate as u8);
    file_writing::put_half(state, second, rule.second);
}

// The count of the rules, and the rules.
fn put_rules(state: &mut [u8], rules: Rules)
    requires { Known (rules_of rules) × (state.old ≡ replicate state_size 0) }
    ensures { state.new ≡ opened (rules_of rules) }
{
    state[0] = rules.count as u8;
    for i in 0..rules.count {
        put_rule(state, cache_contents::rule_place(i), rules.items[i]);
    }
}

// A state with these rules and no writes, unless they are cyclic.
pub fn open_with(state: &mut [u8], rules: Rules) -> Result<(), Cause>
    requires { (length state.old ≡ state_size) × Known (rules_of rules) }
    ensures { call_leaves_state (answer_by result) state.new ≡ opened_by (rules_of rules) state.old }
{
    if rule_cycles::is_cyclic(rules) {
        return Err(Cause::CyclicRules);
    }
    state.fill(0);
    put_rules(state, rules);
    Ok(())
}
