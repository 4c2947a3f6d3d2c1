// The three checks of a disk.
#![tactic(auto)]

ghost use Rattle.std.specs.Prelude.{◌≡◌, ◌<◌};
ghost use Rattle.model.specs.Disk.{first_of, second_of};
ghost use Rattle.model.specs.Check.{damaged, range_holds, holds};

use model::Check;

// Whether a range with this head and tail fails whatever the disk holds: head exceeds tail, or it has
// blocks and some are beyond the disk.
pub fn is_damaged(head: usize, tail: usize) -> bool
    ensures { result ≡ damaged head tail }
{
    if head < tail {
        return model::DISK_BLOCKS < tail;
    }
    head != tail
}

// Whether head is at most tail and the blocks from head up to tail - 1 are there. It asks what
// is_damaged does in an order of its own: with a call of it judging took longer (docs/LANDINGS.md, [6]).
fn range_holds(disk: &[u32; model::DISK_BLOCKS], head: usize, tail: usize) -> bool
    ensures { result ≡ range_holds disk.now head tail }
{
    if tail <= head {
        return head == tail;
    }
    if model::DISK_BLOCKS < tail {
        return false;
    }
    for k in head..tail {
        if disk[k] == 0 {
            return false;
        }
    }
    true
}

// The two numbers of a block.
pub fn first_of(b: u32) -> usize
    ensures { (result ≡ first_of b) × (result < 65536) }
{
    (b / 65536) as usize
}

pub fn second_of(b: u32) -> usize
    ensures { (result ≡ second_of b) × (result < 65536) }
{
    (b % 65536) as usize
}

fn range_at(disk: &[u32; model::DISK_BLOCKS], a: u8) -> bool
    ensures { result ≡ holds disk.now (Check.Range a) }
{
    let b = disk[usize::from(a)];
    range_holds(disk, first_of(b), second_of(b))
}

fn pair_holds(disk: &[u32; model::DISK_BLOCKS], a: u8, v: u32, b: u8, w: u32) -> bool
    ensures { result ≡ holds disk.now (Check.Pair a v b w) }
{
    disk[usize::from(a)] != v || disk[usize::from(b)] == w
}

fn pointer_holds(disk: &[u32; model::DISK_BLOCKS], a: u8) -> bool
    ensures { result ≡ holds disk.now (Check.Pointer a) }
{
    let b = disk[usize::from(a)];
    if b == 0 {
        return true;
    }
    let to = second_of(b);
    if model::LAST_BLOCK < to {
        return false;
    }
    disk[to] != 0
}

// Whether a check holds of a disk.
pub fn check_holds(disk: &[u32; model::DISK_BLOCKS], c: Check) -> bool
    ensures { result ≡ holds disk.now c }
{
    match c {
        Check::Range(a) => range_at(disk, a),
        Check::Pair { a, v, b, w } => pair_holds(disk, a, v, b, w),
        Check::Pointer(a) => pointer_holds(disk, a),
    }
}
