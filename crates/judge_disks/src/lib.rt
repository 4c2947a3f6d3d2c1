// Writes as columns of numbers, and the disk that a schedule of such writes leaves.
#![tactic(auto)]

ghost use Rattle.std.specs.Prelude.{◌≡◌, cond, ◌+◌, ◌<◌, ◌≤◌};
ghost use Rattle.model.specs.Limits.{disk_blocks, most_initial};
ghost use Rattle.model.specs.Rules.{label_of};
ghost use Rattle.model.specs.Schedule.{store, run};
ghost use Rattle.judge_disks.specs.Packed.{unpacked, Packs, labelled, held_from, restored};

use model::Write;

// The schedule that flags every write.
pub const ALL_FLAGS: u64 = 18446744073709551615;

// A write's address and block as one number.
pub fn pack_store(w: Write) -> u64
    ensures { Packs w result }
{
    w.address as u64 * model::WORDS + w.block as u64
}

// A write's label as one number. (Casts: by u64::from the proof lacks that the name fits in 16 bits.)
pub fn pack_label(w: Write) -> u64
    ensures { labelled result ≡ label_of w }
{
    w.name as u64 * model::WORDS + w.epoch as u64
}

// The name and the epoch of such a number.
pub fn name_of(label: u64) -> u16
    ensures { result ≡ (labelled label).name }
{
    (label / model::WORDS % model::NAMES) as u16
}

pub fn epoch_of(label: u64) -> u32
    ensures { result ≡ (labelled label).epoch }
{
    (label % model::WORDS) as u32
}

// The address and the block of a packed write.
pub fn address_of(write: u64) -> usize
    ensures { (result ≡ (unpacked write).address) × (result < disk_blocks) }
{
    (write / model::WORDS % model::DISK_BLOCKS as u64) as usize
}

pub fn block_of(write: u64) -> u32
    ensures { result ≡ (unpacked write).block }
{
    (write % model::WORDS) as u32
}

// One packed write, if its flag is set.
fn store_if(disk: &mut [u32; model::DISK_BLOCKS], on: bool, write: u64)
    ensures { disk.new ≡ cond on (store (unpacked write) disk.old) disk.old }
{
    if on {
        disk[address_of(write)] = block_of(write);
    }
}

// The disk of a schedule, in place: of the `left` writes from place i of a table on, the first if its
// flag is set, then the remaining ones. (A table and a place, no slice: by a thin pointer the recursion becomes
// a loop, docs/PROVING.md, "Fast code that stays provable".)
pub fn apply(
    disk: &mut [u32; model::DISK_BLOCKS],
    table: &[u64; model::MOST_INITIAL],
    i: usize,
    left: usize,
    schedule: u64,
)
    requires { i + left ≤ most_initial }
    ensures { disk.new ≡ run (held_from table.now i left) schedule disk.old }
{
    if 0 < left {
        store_if(disk, schedule & 1 == 1, table[i]);
        apply(disk, table, i + 1, left - 1, schedule >> 1);
    }
}

// The blocks at the addresses of n writes from a place of a table on, as they are on another disk.
pub fn restore(
    disk: &mut [u32; model::DISK_BLOCKS],
    base: &[u32; model::DISK_BLOCKS],
    table: &[u64; model::MOST_INITIAL],
    from: usize,
    n: usize,
)
    requires { from + n ≤ most_initial }
    ensures { disk.new ≡ restored (held_from table.now from n) base.now disk.old }
{
    for i in 0..n {
        let a = address_of(table[from + i]);
        disk[a] = base[a];
    }
}
