// The write-back cache for the receiver's C host: a state of 1,024 lent bytes, a disk of 1,024 lent
// bytes. Every refusal is `refusal number place` and leaves all bytes.
#![tactic(auto)]

ghost use Rattle.std.specs.Prelude.{[], ◌≡◌, ◌<◌, IfErr};
ghost use Rattle.model.specs.Limits.{words};
ghost use Rattle.cache_model.specs.Calls.{open_of, hand_in_of, given, step_of, drain_of};
ghost use Rattle.log_get.specs.Get.{get_answer};
ghost use Rattle.cache_steps.specs.Given.{call_leaves, coded_left, call_leaves_state, coded_kept, Opens};

use model::{Cause, Refusal};

// Stores the earliest waiting write whose needs are all stored, and answers its place from 1; or 0.
pub fn pelzhondy_step(state: &mut [u8], disk: &mut [u8]) -> u64
    ensures { call_leaves result state.new disk.new ≡ coded_left (step_of state.old disk.old) }
{
    let mut rows = [0u64; model::MOST_HELD];
    match cache_steps::look(&mut rows, state, disk) {
        Ok(stored) => cache_steps::place(cache_steps::step_sound(state, disk, &rows, stored)),
        Err(cause) => Refusal::from(cause).code(),
    }
}

// As many steps as there are waiting writes, and how many. (One function of step and drain, handed the call on both
// lent slices, would be no plainer: they share `look` and its laws.)
pub fn pelzhondy_drain(state: &mut [u8], disk: &mut [u8]) -> u64
    ensures { call_leaves result state.new disk.new ≡ coded_left (drain_of state.old disk.old) }
{
    let mut rows = [0u64; model::MOST_HELD];
    match cache_steps::look(&mut rows, state, disk) {
        Ok(stored) => cache_steps::drain_sound(state, disk, &rows, stored),
        Err(cause) => Refusal::from(cause).code(),
    }
}

// Takes a write in, and answers its place from 1.
pub fn pelzhondy_hand_in(
    state: &mut [u8],
    address: u8,
    name: u16,
    epoch: u32,
    first: u16,
    second: u16,
) -> u64
    ensures { call_leaves_state result state.new ≡ coded_kept (hand_in_of (given address name epoch first second) state.old []) }
{
    let w = cache_stores::given(address, name, epoch, first, second);
    if let Err(cause) = cache_handin::hand_fault(state, w) {
        return Refusal::from(cause).code();
    }
    cache_stores::append(state, w)
}

// Starts a state with a file's rules and no writes. Answers 0.
pub fn pelzhondy_open(state: &mut [u8], file: &[u8]) -> u64
    ensures { call_leaves_state result state.new ≡ coded_kept (open_of file.now state.old []) }
{
    model::coded(open_from(state, file))
}

// The same, by its result.
fn open_from(state: &mut [u8], file: &[u8]) -> Result<u64, Refusal>
    ensures opens { Opens file.now state.old result state.new }
    ensures fits { IfErr result (λ why. why.place < words) }
{
    if state.len() != cache_model::STATE_SIZE {
        return Err(Refusal::from(Cause::Not1024Bytes));
    }
    let found = file_reader::read(file)?;
    if 0 < found.count {
        return Err(Refusal::from(Cause::FileHasTests));
    }
    cache_opening::open_with(state, file_loading::file_rules(file, found.rules))?;
    Ok(0)
}

// The value at the highest address from head to tail - 1 of a disk of 1,024 bytes whose block is
// non-empty with that key, or 65,536 for none. 14, 21.
pub fn pelzhondy_get(disk: &[u8], key: u16) -> u64
    ensures { result ≡ get_answer disk.now key }
{
    log_get::get(disk, key)
}
