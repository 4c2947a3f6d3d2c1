// Checks asked of many schedules at once: of all that have what is chosen and, beyond it, only what is free.
// A block is what the last flagged write to it leaves there. So a check holds of all these schedules, or of
// none, or what it looks at hangs on a free write. Once the two tables are filled, `n` is there for the
// contracts: the code asks `writers`.
#![tactic(auto)]

ghost use Rattle.std.specs.Prelude.{◌≡◌, ℕ, ◌<◌, ◌≤◌, Bool, true, List, eqb, length, take};
ghost use Rattle.relation.specs.Tables.{Blank};
ghost use Rattle.model.specs.Limits.{disk_blocks, most_main};
ghost use Rattle.judge_settled.specs.Known.{block_known, check_known};
ghost use Rattle.judge_settled.specs.Settled.{Says, opposed, definite, laid, is_block, holds_in, all_hold, own_block, is_known, is_there, range_in, holds_by, valued, Writers, Ready, run_end, later_of, Runs, Among, AlikeIf};

use judge_closed::Between;
use model::{Check, DISK_BLOCKS, MOST_INITIAL};

// What all these schedules say: yes, or no; or nothing is said, and a free write is named on which it may hang.
#[derive(Clone, Copy, PartialEq, Eq)]
pub enum Answer {
    Yes,
    No,
    Open(usize),
}

// The answer of the checks, and how many of them, from the first on, hold of all these schedules.
#[derive(Clone, Copy)]
pub struct Asked {
    pub held: usize,
    pub answer: Answer,
}

// A disk, and a column whose first n writes may be stored there; with the writes to each address, and the runs
// of blocks that are there whatever is stored.
#[derive(Clone, Copy)]
pub struct Setting<'a> {
    pub base: &'a [u32; DISK_BLOCKS],
    pub stores: &'a [u64; MOST_INITIAL],
    pub n: usize,
    pub writers: &'a [u64; DISK_BLOCKS],
    pub runs: &'a [usize; DISK_BLOCKS],
    pub ghost ready: { Ready stores.now base.now n writers.now },
    pub ghost passed: { Runs base.now writers.now 0 runs.now },
}

// Which of the first n writes of a column go to each address.
pub fn fill_writers(writers: &mut [u64; DISK_BLOCKS], stores: &[u64; MOST_INITIAL], n: usize)
    requires few { n ≤ most_main }
    requires blank { Blank disk_blocks writers.old }
    ensures { Writers stores.now n writers.new }
{
    for (i, store) in stores[..n].iter().enumerate() {
        let a = judge_disks::address_of(*store);
        writers[a] = relation::with_bit(writers[a], i);
    }
}

// Where the run of blocks ends that begins at k, before one that ends at `to`: none of them is empty, and no
// write goes to one, so that they are there whatever is stored.
fn run_end(base: &[u32; DISK_BLOCKS], writers: &[u64; DISK_BLOCKS], k: usize, to: usize) -> usize
    requires { k < disk_blocks }
    ensures { result ≡ run_end base.now writers.now k to }
{
    if writers[k] != 0 {
        return k;
    }
    if base[k] == 0 {
        return k;
    }
    to
}

// Of so few writes a range is asked too seldom for a table of runs to pay.
const FEW_WRITES: usize = 4;

// Where a run ends that begins at each block, so that a range passes over it at once; where the entry is not
// above the block, there is none.
pub fn fill_runs(
    runs: &mut [usize; DISK_BLOCKS],
    base: &[u32; DISK_BLOCKS],
    writers: &[u64; DISK_BLOCKS],
    n: usize,
)
    requires { Blank disk_blocks runs.old }
    ensures { Runs base.now writers.now 0 runs.new }
{
    if n <= FEW_WRITES {
        return;
    }
    let mut to: usize = DISK_BLOCKS;
    for k in (0..DISK_BLOCKS).rev() {
        to = run_end(base, writers, k, to);
        runs[k] = to;
    }
}

// The next block of a range behind k that has to be looked at, or its tail: those of a run are passed over,
// up to the one at a, which is known and may be another than the disk's.
fn later(runs: &[usize; DISK_BLOCKS], a: usize, k: usize, tail: usize) -> usize
    requires { (k < tail) × (tail ≤ disk_blocks) }
    ensures { result ≡ later_of runs.now a k tail }
{
    let next = k + 1;
    if next == tail {
        return tail;
    }
    let to = runs[next].min(tail);
    if to <= next {
        return next;
    }
    if a < next {
        return to;
    }
    to.min(a)
}

impl Answer {
    // Whether it is yes or no.
    fn is_definite(self) -> bool
        ensures { result ≡ definite self }
    {
        match self {
            Answer::Yes | Answer::No => true,
            Answer::Open(_) => false,
        }
    }

    // The answer to the opposite question.
    fn opposite(self) -> Answer
        ensures { result ≡ opposed self }
    {
        match self {
            Answer::Yes => Answer::No,
            Answer::No => Answer::Yes,
            Answer::Open(h) => Answer::Open(h),
        }
    }
}

// Whether a known block is v.
fn is_value(own: u32, v: u32) -> Answer
    ensures { result ≡ valued own v }
{
    if own == v { Answer::Yes } else { Answer::No }
}

// A question about a schedule's disk that begins with one block.
trait Question: Copy {
    ghost begins: { Self → ℕ };

    ghost holds: { Self → List ℕ → List ℕ → ℕ → ℕ → Bool };

    ghost holds_with: { Self → List ℕ → List ℕ → ℕ → ℕ → ℕ → Bool };

    // The address of that block.
    fn address(self) -> usize
        ensures { (result ≡ begins self) × (result < disk_blocks) };

    // The answer, if this is that block.
    fn with(self, setting: &Setting<'_>, asked: Between, own: u32) -> Answer
        ensures { Says (holds_with self setting.now.stores.now setting.now.base.now setting.now.n own) asked.chosen asked.free result };

    ghost by_block: { (q : Self) (column base : List ℕ) (n own s : ℕ) → laid column base n (begins q) s ≡ own → holds q column base n s ≡ holds_with q column base n own s };
}

// Whether the block at a is v.
#[derive(Clone, Copy)]
struct BlockIs {
    a: usize,
    v: u32,
    ghost inside: { a < disk_blocks },
}

impl Question for BlockIs {
    ghost begins = { λ q. q.a };

    ghost holds = { λ q column base n. is_block column base n q.a q.v };

    ghost holds_with = { λ q column base n own s. eqb own q.v };

    ghost by_block = { λ q column base n own s e. block_known column base n q.a q.v own s e };

    fn address(self) -> usize {
        self.a
    }

    fn with(self, _setting: &Setting<'_>, _asked: Between, own: u32) -> Answer {
        is_value(own, self.v)
    }
}

// Whether a check holds.
impl Question for Check {
    ghost begins = { own_block };

    ghost holds = { λ q column base n. holds_in column base n q };

    ghost holds_with = { λ q column base n own. holds_by column base n q own };

    ghost by_block = { λ q column base n own s e. check_known column base n q own s e };

    fn address(self) -> usize {
        match self {
            Check::Range(a) | Check::Pair { a, .. } | Check::Pointer(a) => usize::from(a),
        }
    }

    fn with(self, setting: &Setting<'_>, asked: Between, own: u32) -> Answer {
        setting.check_with(asked, self, own)
    }
}

impl Setting<'_> {
    // Whether the answer is yes, or no, as `first` says, in all schedules whose writes to a question's block are in a set.
    fn are_alike<Q: Question>(&self, asked: Between, question: Q, set: u64, first: Answer) -> bool
        requires set { Among self.now.stores.now self.now.n (Q.begins question) set }
        requires definite { definite first ≡ true }
        ensures { AlikeIf result (Q.holds question self.now.stores.now self.now.base.now self.now.n) self.now.stores.now self.now.n asked.chosen asked.free (Q.begins question) set first }
    {
        let a = question.address();
        let mut left = set;
        while left != 0 {
            let h = relation::highest(left);
            if question.with(self, asked, judge_disks::block_of(self.stores[h])) != first {
                return false;
            }
            if relation::has_bit(asked.chosen, h) {
                return true;
            }
            left = relation::without(left, 1 << h);
        }
        question.with(self, asked, self.base[a]) == first
    }

    // The answer to a question: by the last write to its block that may be flagged.
    fn ask<Q: Question>(&self, asked: Between, question: Q) -> Answer
        ensures { Says (Q.holds question self.now.stores.now self.now.base.now self.now.n) asked.chosen asked.free result }
    {
        let a = question.address();
        let may = self.writers[a] & (asked.chosen | asked.free);
        if may == 0 {
            return question.with(self, asked, self.base[a]);
        }
        let h = relation::highest(may);
        let first = question.with(self, asked, judge_disks::block_of(self.stores[h]));
        if relation::has_bit(asked.chosen, h) {
            return first;
        }
        // Others need not be asked: none agrees with an open answer.
        if !first.is_definite() {
            return Answer::Open(h);
        }
        if self.are_alike(asked, question, relation::without(may, 1 << h), first) {
            return first;
        }
        Answer::Open(h)
    }

    // Whether the block at k is v, where the block at a is known.
    fn known_is(&self, asked: Between, a: usize, own: u32, k: usize, v: u32) -> Answer
        requires { k < disk_blocks }
        ensures { Says (is_known self.now.stores.now self.now.base.now self.now.n a own k v) asked.chosen asked.free result }
    {
        if k == a {
            return is_value(own, v);
        }
        self.ask(asked, BlockIs { a: k, v })
    }

    // Whether the block at k is not empty, where the block at a is known.
    fn is_there(&self, asked: Between, a: usize, own: u32, k: usize) -> Answer
        requires { k < disk_blocks }
        ensures { Says (is_there self.now.stores.now self.now.base.now self.now.n a own k) asked.chosen asked.free result }
    {
        self.known_is(asked, a, own, k, 0).opposite()
    }

    // Whether a range holds with this head and tail, where the block at a is known: it is not damaged, and the
    // blocks from head up to tail - 1 are not empty.
    fn range_is(&self, asked: Between, a: usize, own: u32, head: usize, tail: usize) -> Answer
        ensures { Says (range_in self.now.stores.now self.now.base.now self.now.n a own head tail) asked.chosen asked.free result }
    {
        if judge_checks::is_damaged(head, tail) {
            return Answer::No;
        }
        let mut k = head;
        while k < tail {
            let there = self.is_there(asked, a, own, k);
            if there != Answer::Yes {
                return there;
            }
            k = later(self.runs, a, k, tail);
        }
        Answer::Yes
    }

    // Whether a pair holds, its own block known: if that is v, the block at b is w.
    fn pair_is(&self, asked: Between, a: usize, own: u32, v: u32, b: usize, w: u32) -> Answer
        requires { (a < disk_blocks) × (b < disk_blocks) }
        ensures { Says (holds_by self.now.stores.now self.now.base.now self.now.n (Check.Pair a v b w) own) asked.chosen asked.free result }
    {
        if own != v {
            return Answer::Yes;
        }
        self.known_is(asked, a, own, b, w)
    }

    // Whether a pointer holds, its own block known: that is empty, or points to one that is not.
    fn pointer_is(&self, asked: Between, a: usize, own: u32) -> Answer
        requires { a < disk_blocks }
        ensures { Says (holds_by self.now.stores.now self.now.base.now self.now.n (Check.Pointer a) own) asked.chosen asked.free result }
    {
        if own == 0 {
            return Answer::Yes;
        }
        let to = judge_checks::second_of(own);
        if model::LAST_BLOCK < to {
            return Answer::No;
        }
        self.is_there(asked, a, own, to)
    }

    // Whether a check holds, its own block known.
    fn check_with(&self, asked: Between, c: Check, own: u32) -> Answer
        ensures { Says (holds_by self.now.stores.now self.now.base.now self.now.n c own) asked.chosen asked.free result }
    {
        match c {
            Check::Range(a) => {
                let head = judge_checks::first_of(own);
                let tail = judge_checks::second_of(own);
                self.range_is(asked, usize::from(a), own, head, tail)
            }
            Check::Pair { a, v, b, w } => {
                self.pair_is(asked, usize::from(a), own, v, usize::from(b), w)
            }
            Check::Pointer(a) => self.pointer_is(asked, usize::from(a), own),
        }
    }

    // What the checks say, of which the first k are known to hold.
    pub fn ask_checks(&self, asked: Between, checks: &[Check], k: usize) -> Asked
        requires known { k ≤ length checks.now }
        requires held { Says (all_hold self.now.stores.now self.now.base.now self.now.n (take k checks.now)) asked.chosen asked.free Answer.Yes }
        ensures known { result.held ≤ length checks.now }
        ensures held { Says (all_hold self.now.stores.now self.now.base.now self.now.n (take result.held checks.now)) asked.chosen asked.free Answer.Yes }
        ensures answer { Says (all_hold self.now.stores.now self.now.base.now self.now.n checks.now) asked.chosen asked.free result.answer }
    {
        for i in k..checks.len() {
            let answer = self.ask(asked, checks[i]);
            if answer != Answer::Yes {
                return Asked { held: i, answer };
            }
        }
        Asked {
            held: checks.len(),
            answer: Answer::Yes,
        }
    }
}
