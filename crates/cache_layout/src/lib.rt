// The layout of a state, and its flags.
#![tactic(auto)]

ghost use Rattle.std.specs.Prelude.{◌≡◌, ◌-◌, ◌<◌, ◌≤◌, length};
ghost use Rattle.relation.specs.Bits.{mask_of};
ghost use Rattle.relation.specs.Lists.{all_below};
ghost use Rattle.model.specs.Limits.{most_held};
ghost use Rattle.cache_model.specs.State.{state_size, accepted_count, stored_in};
ghost use Rattle.cache_layout.specs.Flags.{zeros, flag_fits, framed};

// Which of the accepted writes are stored.
pub fn stored_mask(state: &[u8]) -> u64
    requires { (length state.now ≡ state_size) × (accepted_count state.now ≤ most_held) }
    ensures { result ≡ mask_of (stored_in state.now) (accepted_count state.now) }
{
    let n = usize::from(state[1]);
    let mut mask: u64 = 0;
    for i in 0..n {
        let at = cache_contents::flag_place(i);
        mask = relation::with_if(mask, i, state[at] == 1);
    }
    mask
}

// Whether the bytes from `from` up to `end` are zero. (By their places, eleven instructions for four
// bytes where writes stand: `iter().all(..)` takes five for each byte, which a call on a state that holds few writes
// feels.)
fn are_zero(state: &[u8], from: usize, end: usize) -> bool
    requires { (from ≤ end) × (end ≤ length state.now) }
    ensures { result ≡ zeros state.now from (end - from) }
{
    for k in from..end {
        if state[k] != 0 {
            return false;
        }
    }
    true
}

// Whether the last byte of each accepted write's place is a flag.
fn flags_fit(state: &[u8]) -> bool
    requires { (length state.now ≡ state_size) × (accepted_count state.now ≤ most_held) }
    ensures { result ≡ all_below (flag_fits state.now) (accepted_count state.now) }
{
    let n = usize::from(state[1]);
    for i in 0..n {
        let at = cache_contents::flag_place(i);
        if 1 < state[at] {
            return false;
        }
    }
    true
}

// Whether a state has the layout, within the limits; that its stored count equals its flags is not asked here.
pub fn is_framed(state: &[u8]) -> bool
    requires { length state.now ≡ state_size }
    ensures { result ≡ framed state.now }
{
    let rules = usize::from(state[0]);
    if model::MOST_RULES < rules {
        return false;
    }
    let writes = usize::from(state[1]);
    if model::MOST_HELD < writes {
        return false;
    }
    if state[3] != 0 {
        return false;
    }
    if !are_zero(
        state,
        cache_contents::rule_place(rules),
        cache_model::WRITES_START,
    ) {
        return false;
    }
    if !are_zero(
        state,
        cache_contents::write_place(writes),
        cache_model::STATE_SIZE,
    ) {
        return false;
    }
    flags_fit(state)
}
