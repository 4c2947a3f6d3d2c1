// The receiver's library for C: each routine of `receiver` under its own name and contract, as a static library.
#![tactic(auto)]

ghost use Rattle.std.specs.Prelude.{[], ◌≡◌};
ghost use Rattle.cache_model.specs.Calls.{open_of, hand_in_of, given, step_of, drain_of};
ghost use Rattle.log_get.specs.Get.{get_answer};
ghost use Rattle.cache_steps.specs.Given.{call_leaves, coded_left, call_leaves_state, coded_kept};

// Stores the earliest waiting write whose needs are all stored, and answers its place from 1; or 0.
#[unsafe(no_mangle)]
pub extern "C" fn pelzhondy_step(state: &mut [u8], disk: &mut [u8]) -> u64
    ensures { call_leaves result state.new disk.new ≡ coded_left (step_of state.old disk.old) }
{
    receiver::pelzhondy_step(state, disk)
}

// As many steps as there are waiting writes, and how many.
#[unsafe(no_mangle)]
pub extern "C" fn pelzhondy_drain(state: &mut [u8], disk: &mut [u8]) -> u64
    ensures { call_leaves result state.new disk.new ≡ coded_left (drain_of state.old disk.old) }
{
    receiver::pelzhondy_drain(state, disk)
}

// Takes a write in, and answers its place from 1.
#[unsafe(no_mangle)]
pub extern "C" fn pelzhondy_hand_in(
    state: &mut [u8],
    address: u8,
    name: u16,
    epoch: u32,
    first: u16,
    second: u16,
) -> u64
    ensures { call_leaves_state result state.new ≡ coded_kept (hand_in_of (given address name epoch first second) state.old []) }
{
    receiver::pelzhondy_hand_in(state, address, name, epoch, first, second)
}

// Starts a state with a file's rules and no writes. Answers 0.
#[unsafe(no_mangle)]
pub extern "C" fn pelzhondy_open(state: &mut [u8], file: &[u8]) -> u64
    ensures { call_leaves_state result state.new ≡ coded_kept (open_of file.now state.old []) }
{
    receiver::pelzhondy_open(state, file)
}

// The value at the highest address from head to tail - 1 of a disk of 1,024 bytes whose block is
// non-empty with that key, or 65,536 for none. 14, 21.
#[unsafe(no_mangle)]
pub extern "C" fn pelzhondy_get(disk: &[u8], key: u16) -> u64
    ensures { result ≡ get_answer disk.now key }
{
    receiver::pelzhondy_get(disk, key)
}
