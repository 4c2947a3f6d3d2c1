// Sound states of the cache: known predicates, acyclic rules, counts, and what stored writes need.
#![tactic(auto)]

ghost use Rattle.std.specs.Prelude.{◌≡◌, true, false, ◌<◌, ◌≤◌, eqb, length, MatchOption};
ghost use Rattle.relation.specs.Bits.{mask_of};
ghost use Rattle.relation.specs.Lists.{all_below};
ghost use Rattle.model.specs.Limits.{most_rules, most_held};
ghost use Rattle.model.specs.Rules.{known};
ghost use Rattle.model.specs.Test.{count_below};
ghost use Rattle.rule_match.specs.Held.{rules_of};
ghost use Rattle.cache_model.specs.State.{state_size, accepted_count, stored_count, stored_in};
ghost use Rattle.cache_model.specs.Sound.{ruled, needs_hold};
ghost use Rattle.cache_soundness.specs.Parts.{covered, covered_at, Decoded, Seen};

use cache_masks::Columns;
use rule_match::Rules;

// Whether every predicate is one of the three.
fn is_known(rules: Rules) -> bool
    ensures { result ≡ known (rules_of rules) }
{
    rules.as_slice().iter().all(|rule| rule.predicate <= 2)
}

// Whether the row of i, where i is in a mask, is part of the mask.
fn row_covered(row: u64, mask: u64, i: usize) -> bool
    requires { i < most_held }
    ensures { result ≡ covered row mask i }
{
    if relation::has_bit(mask, i) {
        return row & mask == row;
    }
    true
}

// Whether the rows of all members of a mask are part of it.
fn all_covered(rows: &[u64; model::MOST_HELD], mask: u64, n: usize) -> bool
    requires { n ≤ most_held }
    ensures { result ≡ all_below (covered_at rows.now mask) n }
{
    for i in 0..n {
        if !row_covered(rows[i], mask, i) {
            return false;
        }
    }
    true
}

// Whether the state's stored count equals its flags. stored has the stored writes.
fn is_counted(state: &[u8], stored: u64) -> bool
    requires { (length state.now ≡ state_size) × (stored ≡ mask_of (stored_in state.now) (accepted_count state.now)) }
    ensures { result ≡ eqb (stored_count state.now) (count_below (stored_in state.now) (accepted_count state.now)) }
{
    u32::from(state[2]) == stored.count_ones()
}

// What is decoded of a state: its rules and its stored writes.
#[derive(Clone, Copy)]
pub struct Examined {
    pub rules: Rules,
    pub stored: u64,
}

// Whether a state is sound is found in two calls, each of which leaves the stack before the other begins.
// The first: its rules and its stored writes, where it has the layout and its rules are known and not cyclic.
pub fn decode(state: &[u8]) -> Option<Examined>
    requires { length state.now ≡ state_size }
    ensures { MatchOption result (ruled state.now ≡ false) (λ seen. (ruled state.now ≡ true) × Decoded state.now seen) }
{
    if !cache_layout::is_framed(state) {
        return None;
    }
    let stored = cache_layout::stored_mask(state);
    if !is_counted(state, stored) {
        return None;
    }
    let rules = cache_contents::state_rules(state);
    if !is_known(rules) {
        return None;
    }
    if rule_cycles::is_cyclic(rules) {
        return None;
    }
    Some(Examined { rules, stored })
}

// The second: whether stored writes need only stored ones, and there is no ring of needs. Leaves the needs in
// rows, and the writes in columns.
pub fn needs_hold(
    rows: &mut [u64; model::MOST_HELD],
    columns: &mut Columns,
    state: &[u8],
    seen: Examined,
) -> bool
    requires { (length state.now ≡ state_size) × Decoded state.now seen }
    ensures { (result ≡ needs_hold state.now) × Seen state.now rows.new columns.new seen }
{
    let n = usize::from(state[1]);
    cache_contents::fill_columns(columns, state);
    let mut tables = cache_needs::no_tables();
    cache_needs::prepare(rows, &mut tables, columns, n);
    let mut k: usize = 0;
    // From run to run of the rules, however long each is: no range counts this loop.
    while k < seen.rules.count {
        k = cache_needs::add_run(rows, seen.rules, k, &columns.names, n, &tables);
    }
    if !all_covered(rows, seen.stored, n) {
        return false;
    }
    !relation::has_ring(rows, n)
}
