// A hand-in of the cache: its refusals.
#![tactic(auto)]

ghost use Rattle.std.specs.Prelude.{◌≡◌, false, cond, [], ◌∷◌, ◌++◌, ◌<◌, ◌≤◌, take};
ghost use Rattle.relation.specs.Bits.{bit};
ghost use Rattle.relation.specs.Finite.{rows_of};
ghost use Rattle.model.specs.Limits.{most_rules, most_held};
ghost use Rattle.model.specs.Answer.{fault_number};
ghost use Rattle.model.specs.Cyclic.{cyclic};
ghost use Rattle.model.specs.Needs.{needs, needs_ring, late};
ghost use Rattle.rule_match.specs.Held.{rules_of};
ghost use Rattle.cache_masks.specs.Columns.{writes_of};
ghost use Rattle.cache_needs.specs.Needed.{dependent_mask};
ghost use Rattle.cache_steps.specs.Given.{hand_fault};

use cache_masks::Columns;
use model::{Cause, Write};
use rule_match::Rules;

// Whether w, behind n writes that have no ring of needs, would close one: through itself only, so that nothing
// is looked for where no write depends on it. rows has their needs, dependents those that depend on w.
fn closes_ring(
    rows: &[u64; model::MOST_HELD],
    rules: Rules,
    columns: &Columns,
    n: usize,
    w: Write,
    dependents: u64,
) -> bool
    requires { ((n < most_held) × (take n rows.now ≡ rows_of (needs (rules_of rules) (writes_of columns.now n)) n)) × ((cyclic (rules_of rules) ≡ false) × ((needs_ring (rules_of rules) (writes_of columns.now n) ≡ false) × (dependents ≡ dependent_mask (rules_of rules) (writes_of columns.now n) w n))) }
    ensures { result ≡ needs_ring (rules_of rules) (writes_of columns.now n ++ (w ∷ [])) }
{
    if dependents == 0 {
        return false;
    }
    let needed = cache_needs::needed(rules, columns, n, w);
    relation::closes_ring(rows, needed, dependents)
}

// The refusal that w meets behind n writes. stored has the stored ones.
fn fault_behind(
    rows: &[u64; model::MOST_HELD],
    rules: Rules,
    columns: &Columns,
    n: usize,
    w: Write,
    stored: u64,
) -> Result<(), Cause>
    requires { ((n < most_held) × (take n rows.now ≡ rows_of (needs (rules_of rules) (writes_of columns.now n)) n)) × ((cyclic (rules_of rules) ≡ false) × (needs_ring (rules_of rules) (writes_of columns.now n) ≡ false)) }
    ensures { fault_number result ≡ cond (late (rules_of rules) (writes_of columns.now n) (bit stored) w) 17 (cond (needs_ring (rules_of rules) (writes_of columns.now n ++ (w ∷ []))) 18 0) }
{
    let dependents = cache_needs::dependents(rules, &columns.names, &columns.epochs, n, w);
    if dependents & stored != 0 {
        return Err(Cause::Late);
    }
    if closes_ring(rows, rules, columns, n, w, dependents) {
        return Err(Cause::RingOfNeeds);
    }
    Ok(())
}

// The refusal that a hand-in meets.
pub fn hand_fault(state: &[u8], w: Write) -> Result<(), Cause>
    ensures { fault_number result ≡ hand_fault w state.now }
{
    if state.len() != cache_model::STATE_SIZE {
        return Err(Cause::Not1024Bytes);
    }
    let Some(seen) = cache_soundness::decode(state) else {
        return Err(Cause::NotSound);
    };
    let mut rows = [0u64; model::MOST_HELD];
    let mut columns = cache_masks::no_columns();
    if !cache_soundness::needs_hold(&mut rows, &mut columns, state, seen) {
        return Err(Cause::NotSound);
    }
    let n = usize::from(state[1]);
    if model::MOST_HELD <= n {
        return Err(Cause::StateFull);
    }
    fault_behind(&rows, seen.rules, &columns, n, w, seen.stored)
}
