// What a state holds: its rules and its writes, and where they stand.
#![tactic(auto)]

ghost use Rattle.std.specs.Prelude.{◌≡◌, ◌+◌, ◌<◌, ◌≤◌, length};
ghost use Rattle.model.specs.Limits.{most_rules, most_held};
ghost use Rattle.rule_match.specs.Held.{rules_of};
ghost use Rattle.cache_model.specs.State.{state_size, flag_place, rule_count, accepted_count, rule_base, write_base, write_in, rules_in};
ghost use Rattle.cache_contents.specs.Columns.{InColumns};

use cache_masks::Columns;
use model::Write;
use rule_match::Rules;

// Where rule i stands.
pub fn rule_place(i: usize) -> usize
    requires { i ≤ most_rules }
    ensures { result ≡ rule_base i }
{
    cache_model::RULES_START + file_format::WIDE_RULE_LENGTH * i
}

// Where write i stands.
pub fn write_place(i: usize) -> usize
    requires { i ≤ most_held }
    ensures { result ≡ write_base i }
{
    cache_model::WRITES_START + cache_model::ENTRY_LENGTH * i
}

// Where its flag stands.
pub fn flag_place(i: usize) -> usize
    requires { i < most_held }
    ensures { result ≡ write_base i + flag_place }
{
    write_place(i) + cache_model::FLAG_PLACE
}

// The state's rules. A rule stands as the body of a rule's field with names of two bytes.
pub fn state_rules(state: &[u8]) -> Rules
    requires { (length state.now ≡ state_size) × (rule_count state.now ≤ most_rules) }
    ensures { (rules_of result ≡ rules_in state.now) × (result.count ≡ rule_count state.now) }
{
    let n = usize::from(state[0]);
    let mut out = rule_match::none();
    out.count = n;
    for i in 0..n {
        let b = rule_place(i);
        let e = b + file_format::WIDE_RULE_LENGTH;
        out.items[i] = file_fields::read_wide_rule(&state[b..e]);
    }
    out
}

// Write i. It stands as the body of a write's field with a name of two bytes.
pub fn write_in(state: &[u8], i: usize) -> Write
    requires { (length state.now ≡ state_size) × (i < most_held) }
    ensures { result ≡ write_in state.now i }
{
    let b = write_place(i);
    let e = b + file_format::WIDE_WRITE_LENGTH;
    file_fields::read_wide_write(&state[b..e])
}

// The accepted writes in columns.
pub fn fill_columns(columns: &mut Columns, state: &[u8])
    requires { (length state.now ≡ state_size) × (accepted_count state.now ≤ most_held) }
    ensures { InColumns state.now (accepted_count state.now) columns.new }
{
    let n = usize::from(state[1]);
    for i in 0..n {
        let at = write_place(i);
        columns.addresses[i] = state[at];
        columns.names[i] = file_format::half_at(state, at + 1);
        columns.epochs[i] = file_format::word_at(state, at + 3);
    }
}
