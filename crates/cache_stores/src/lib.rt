// What is written to disk and state: one block, a write's flag, a write's bytes and one more in the count.
#![tactic(auto)]

ghost use Rattle.std.specs.Prelude.{◌≡◌, false, ◌+◌, ◌<◌, ◌≤◌, length};
ghost use Rattle.std.proofs.lemmas.List.Edits.{sets};
ghost use Rattle.model.specs.Limits.{most_held};
ghost use Rattle.file_format.specs.Bytes.{disk_length, wide_write_bytes};
ghost use Rattle.file_format.specs.File.{wide_write_length};
ghost use Rattle.file_writing.specs.Writing.{Wrote};
ghost use Rattle.cache_model.specs.Entries.{entry};
ghost use Rattle.cache_model.specs.State.{state_size, entry_length, accepted_count, stored_count, marked, stored_on, entry_bytes, handed};
ghost use Rattle.cache_model.specs.Calls.{given};

use model::Write;

// The store of one block, which is atomic.
pub fn store_block(disk: &mut [u8], w: Write)
    requires { length disk.old ≡ disk_length }
    ensures { disk.new ≡ stored_on disk.old w }
{
    let at = file_format::BLOCK_LENGTH * usize::from(w.address);
    file_writing::put_word(disk, at, w.block);
}

// Write i is stored.
pub fn mark(state: &mut [u8], i: usize)
    requires { (length state.old ≡ state_size) × ((i < most_held) × (stored_count state.old ≤ most_held)) }
    ensures { state.new ≡ marked state.old i }
{
    let stored = state[2] + 1;
    state[cache_contents::flag_place(i)] = 1;
    state[2] = stored;
}

// Hand-in's five values as a write.
#[tactic(auto, unfolding(model::specs::Disk::block))]
pub fn given(address: u8, name: u16, epoch: u32, first: u16, second: u16) -> Write
    ensures { result ≡ given address name epoch first second }
{
    Write {
        address,
        name,
        epoch,
        block: u32::from(first) * 65536 + u32::from(second),
    }
}

// A write's 11 bytes, the body of its field with a name of two bytes; answers the next place.
fn put_write(state: &mut [u8], at: usize, w: Write) -> usize
    requires { at + wide_write_length ≤ length state.old }
    ensures { Wrote state.old at (wide_write_bytes w) state.new result }
{
    let name = file_writing::put(state, at, w.address);
    let epoch = file_writing::put_half(state, name, w.name);
    let block = file_writing::put_word(state, epoch, w.epoch);
    file_writing::put_word(state, block, w.block)
}

// A waiting write's 12.
fn put_entry(state: &mut [u8], at: usize, w: Write)
    requires { at + entry_length ≤ length state.old }
    ensures { state.new ≡ sets state.old at (entry_bytes (entry w false)) }
{
    let flag = put_write(state, at, w);
    file_writing::put(state, flag, 0);
}

// w is appended, and waits. Answers its place from 1.
pub fn append(state: &mut [u8], w: Write) -> u64
    requires { (length state.old ≡ state_size) × (accepted_count state.old < most_held) }
    ensures { (result ≡ accepted_count state.old + 1) × (state.new ≡ handed state.old w) }
{
    let place = state[1] + 1;
    let at = cache_contents::write_place(usize::from(state[1]));
    put_entry(state, at, w);
    state[1] = place;
    u64::from(place)
}
