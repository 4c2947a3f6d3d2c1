// The reading log: get.
#![tactic(auto)]

ghost use Rattle.std.specs.Prelude.{◌≡◌, ◌-◌, ◌<◌, length, false};
ghost use Rattle.model.specs.Limits.{disk_blocks};
ghost use Rattle.model.specs.Check.{damaged};
ghost use Rattle.file_format.specs.Bytes.{disk_length, block_in};
ghost use Rattle.log_get.specs.Get.{keyed, get_from, get_answer, found_value};

use model::{Cause, Refusal};

// What get answers for a key without a value: its answer is one number, for C.
const NO_VALUE: u64 = 65536;

// The number of block a of a disk.
fn block_at(disk: &[u8], a: usize) -> u32
    requires { (length disk.now ≡ disk_length) × (a < disk_blocks) }
    ensures { result ≡ block_in disk.now a }
{
    file_format::word_at(disk, file_format::BLOCK_LENGTH * a)
}

// Whether block a is non-empty and has this key.
fn has_key(disk: &[u8], key: u16, a: usize) -> bool
    requires { (length disk.now ≡ disk_length) × (a < disk_blocks) }
    ensures { result ≡ keyed disk.now key a }
{
    let b = block_at(disk, a);
    if b == 0 {
        return false;
    }
    judge_checks::first_of(b) == usize::from(key)
}

// The value of a key among the blocks from head to tail - 1, from the highest down.
fn find_key(disk: &[u8], key: u16, head: usize, tail: usize) -> Option<usize>
    requires { (length disk.now ≡ disk_length) × (damaged head tail ≡ false) }
    ensures { found_value result ≡ get_from disk.now key head (tail - head) }
{
    for a in (head..tail).rev() {
        if has_key(disk, key, a) {
            return Some(judge_checks::second_of(block_at(disk, a)));
        }
    }
    None
}

// The value at the highest address from head to tail - 1 whose block is non-empty with that key, or
// 65,536 for none. 14: the disk has not 1,024 bytes; 21: head > tail, or head < tail and tail > 256.
pub fn get(disk: &[u8], key: u16) -> u64
    ensures { result ≡ get_answer disk.now key }
{
    if disk.len() != file_format::DISK_LENGTH {
        return Refusal::from(Cause::Not1024Bytes).code();
    }
    let b = block_at(disk, 0);
    let head = judge_checks::first_of(b);
    let tail = judge_checks::second_of(b);
    if judge_checks::is_damaged(head, tail) {
        return Refusal::from(Cause::LogDamaged).code();
    }
    match find_key(disk, key, head, tail) {
        Some(value) => value as u64,
        None => NO_VALUE,
    }
}
