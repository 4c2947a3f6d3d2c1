// A step and a drain of the cache: the earliest write whose needs are all stored, stored and marked.
#![tactic(auto)]

ghost use Rattle.std.specs.Prelude.{◌≡◌, true, ◌<◌, ◌≤◌, length, IfSome, MatchResult};
ghost use Rattle.relation.specs.Bits.{mask_of};
ghost use Rattle.model.specs.Limits.{most_held};
ghost use Rattle.model.specs.Answer.{number_of};
ghost use Rattle.file_format.specs.Bytes.{disk_length};
ghost use Rattle.cache_model.specs.State.{state_size, accepted_count, stored_count, write_in, stored_in, marked, stored_on};
ghost use Rattle.cache_model.specs.Sound.{sound};
ghost use Rattle.cache_model.specs.Calls.{stepped, drained};
ghost use Rattle.cache_soundness.specs.Parts.{Tabled};
ghost use Rattle.cache_steps.specs.Given.{call_leaves, coded_left, call_fault};
ghost use Rattle.cache_steps.specs.Ready.{place_of, first_ready, with_stored};

use model::Cause;

// A place from 1, or 0 for none: how an answer tells which write was stored. (The C interface has it so.)
pub fn place(stored: Option<usize>) -> u64
    requires { IfSome stored (λ i. i < most_held) }
    ensures { result ≡ place_of stored }
{
    match stored {
        None => 0,
        Some(i) => i as u64 + 1,
    }
}

// The earliest of the first n writes that waits and whose needs are all stored. rows has the needs, mask the
// stored writes.
fn ready(rows: &[u64; model::MOST_HELD], mask: u64, n: usize) -> Option<usize>
    requires { n ≤ most_held }
    ensures { place_of result ≡ first_ready rows.now mask n }
{
    let mut left = relation::without(relation::all_below(n), mask);
    while left != 0 {
        let i = relation::lowest(left);
        let row = rows[i];
        if row & mask == row {
            return Some(i);
        }
        left = relation::without(left, 1 << i);
    }
    None
}

// Write i is stored on the disk, and marked.
fn store_write(state: &mut [u8], disk: &mut [u8], i: usize)
    requires { (length state.old ≡ state_size) × ((length disk.old ≡ disk_length) × ((i < most_held) × (stored_count state.old ≤ most_held))) }
    ensures { (state.new ≡ marked state.old i) × (disk.new ≡ stored_on disk.old (write_in state.old i)) }
{
    cache_stores::store_block(disk, cache_contents::write_in(state, i));
    cache_stores::mark(state, i);
}

// A step on a sound state: which write it stores, if one is ready. rows has the state's needs, mask its stored
// writes.
pub fn step_sound(
    state: &mut [u8],
    disk: &mut [u8],
    rows: &[u64; model::MOST_HELD],
    mask: u64,
) -> Option<usize>
    requires { (length disk.old ≡ disk_length) × ((sound state.old ≡ true) × (Tabled state.old rows.now × (mask ≡ mask_of (stored_in state.old) (accepted_count state.old)))) }
    ensures { (call_leaves (place_of result) state.new disk.new ≡ coded_left (stepped state.old disk.old)) × IfSome result (λ i. i < most_held) }
{
    let i = ready(rows, mask, usize::from(state[1]))?;
    store_write(state, disk, i);
    Some(i)
}

// Looks at state and disk, once, for a step or a drain: the stored writes, or why it is refused. Leaves the needs of
// a sound state in rows.
pub fn look(rows: &mut [u64; model::MOST_HELD], state: &[u8], disk: &[u8]) -> Result<u64, Cause>
    ensures { MatchResult result (λ stored. (call_fault state.now disk.now ≡ 0) × (Tabled state.now rows.new × (stored ≡ mask_of (stored_in state.now) (accepted_count state.now)))) (λ cause. number_of cause ≡ call_fault state.now disk.now) }
{
    if state.len() != cache_model::STATE_SIZE {
        return Err(Cause::Not1024Bytes);
    }
    if disk.len() != file_format::DISK_LENGTH {
        return Err(Cause::Not1024Bytes);
    }
    let Some(seen) = cache_soundness::decode(state) else {
        return Err(Cause::NotSound);
    };
    let mut columns = cache_masks::no_columns();
    if !cache_soundness::needs_hold(rows, &mut columns, state, seen) {
        return Err(Cause::NotSound);
    }
    Ok(seen.stored)
}

// mask, with a write that a step may have stored.
#[tactic(auto, unfolding(crate::specs::Ready::with_stored))]
fn with_stored(mask: u64, stored: Option<usize>) -> u64
    requires { IfSome stored (λ i. i < most_held) }
    ensures { result ≡ with_stored mask stored }
{
    match stored {
        None => mask,
        Some(i) => relation::with_bit(mask, i),
    }
}

// As many steps of a sound state as there are waiting writes. A step changes no needs.
pub fn drain_sound(
    state: &mut [u8],
    disk: &mut [u8],
    rows: &[u64; model::MOST_HELD],
    mask: u64,
) -> u64
    requires { (length disk.old ≡ disk_length) × ((sound state.old ≡ true) × (Tabled state.old rows.now × (mask ≡ mask_of (stored_in state.old) (accepted_count state.old)))) }
    ensures { call_leaves result state.new disk.new ≡ coded_left (drained state.old disk.old) }
{
    let accepted = usize::from(state[1]);
    let stored = usize::from(state[2]);
    let mut done = mask;
    for n in stored..accepted {
        done = with_stored(done, step_sound(state, disk, rows, done));
    }
    (accepted - stored) as u64
}
