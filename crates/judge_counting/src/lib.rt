// All schedules of a test counted. Not one by one: where what is chosen settles all checks, the valid
// schedules between what is chosen and what may be are counted at once.
#![tactic(auto)]

ghost use Rattle.std.specs.Prelude.{◌≡◌, ◌+◌, ◌^◌, ◌<◌, ◌≤◌, length, take};
ghost use Rattle.relation.specs.Rank.{small_sets};
ghost use Rattle.model.specs.Limits.{most_main, most_checks, most_schedules};
ghost use Rattle.judge_disks.specs.Packed.{held_from};
ghost use Rattle.judge_schedules.specs.Valid.{valid_rows, bad_rows, Narrow};
ghost use Rattle.judge_closed.specs.Closed.{valid_between, Choice};
ghost use Rattle.judge_settled.specs.Settled.{Says, all_hold};
ghost use Rattle.judge_counting.specs.Tally.{tallied, with_good, with_bad, bad_between, Room, Gains};

use judge_closed::{Between, Ties};
use judge_settled::{Answer, Setting};
use model::{Check, DISK_BLOCKS, MOST_CHECKS, MOST_INITIAL};

// The judge's three numbers: valid schedules, bad ones, and the smallest of these by relation::rank, or 0
// where there is none.
#[derive(Clone, Copy)]
pub struct Judgement {
    pub valid: u64,
    pub bad: u64,
    pub shown: u64,
}

// The counts so far, and the least rank of the bad ones.
#[derive(Clone, Copy)]
struct Tally {
    valid: u64,
    bad: u64,
    best: u64,
}

// Above the rank of every schedule. Its lower half is 0, which is what is shown where none is bad.
const NO_RANK: u64 = 64 * relation::SMALL_SETS;

impl Tally {
    // More valid schedules in the counts, all of which leave consistent disks.
    fn add_good(self, many: u64) -> Tally
        requires { self.valid + many ≤ most_schedules }
        ensures { result ≡ with_good self many }
    {
        Tally {
            valid: self.valid + many,
            ..self
        }
    }

    // More valid schedules in the counts, all of which are bad, and s the smallest of them.
    fn add_bad(self, many: u64, s: u64) -> Tally
        requires valid { self.valid + many ≤ most_schedules }
        requires bad { self.bad + many ≤ most_schedules }
        requires small { s < small_sets }
        ensures { result ≡ with_bad self many s }
    {
        Tally {
            valid: self.valid + many,
            bad: self.bad + many,
            best: self.best.min(relation::rank(s)),
        }
    }
}

// What is asked of the schedules: how their writes are tied, what they leave, and the checks of it. (A lifetime
// for each part: where all share one, the borrow checker does not cover the place that makes a test.)
#[derive(Clone, Copy)]
struct Test<'a, 'b, 'c> {
    ties: Ties<'a>,
    setting: Setting<'b>,
    checks: &'c [Check],
    ghost same: { setting.n ≡ ties.n },
}

impl Test<'_, '_, '_> {
    // Adds to the counts the valid schedules that have what is chosen and, beyond it, only what is free. The first
    // k checks hold of all of them. Where a check hangs on a free write, those without it come first, with all that
    // depends on it left out too, and then those with it and with all that it depends on. Where all are bad, what is
    // chosen is a part of every other one, and so the smallest.
    fn walk(&self, t: Tally, schedules: Between, k: usize) -> Tally
        requires choice { Choice self.now.ties.dependencies.now self.now.ties.n schedules.chosen schedules.free }
        requires known { k ≤ length self.now.checks.now }
        requires held { Says (all_hold self.now.setting.stores.now self.now.setting.base.now self.now.setting.n (take k self.now.checks.now)) schedules.chosen schedules.free Answer.Yes }
        requires room { Room self.now.ties.dependencies.now self.now.ties.n schedules.chosen schedules.free t }
        ensures { Gains (valid_between self.now.ties.dependencies.now self.now.ties.n schedules.chosen schedules.free) (bad_between self.now.setting.stores.now self.now.setting.base.now self.now.ties.n self.now.checks.now self.now.ties.dependencies.now schedules.chosen schedules.free) (2 ^ self.now.ties.n) t result }
    {
        let asked = self.setting.ask_checks(schedules, self.checks, k);
        match asked.answer {
            Answer::Yes => t.add_good(self.ties.count_between(schedules)),
            Answer::No => t.add_bad(self.ties.count_between(schedules), schedules.chosen),
            Answer::Open(h) => {
                let left = self.ties.without(schedules, h);
                let first = self.walk(t, left, asked.held);
                let right = self.ties.with(schedules, h);
                self.walk(first, right, asked.held)
            }
        }
    }
}

// The counts over all schedules of the first n writes of a table of stores, by a table of rows.
pub fn count_all(
    rows: &[u64; 64],
    base: [u32; DISK_BLOCKS],
    stores: &[u64; MOST_INITIAL],
    n: usize,
    checks: [Check; MOST_CHECKS],
    m: usize,
) -> Judgement
    requires { (n ≤ most_main) × ((m ≤ most_checks) × Narrow rows.now n) }
    ensures { result ≡ tallied (valid_rows rows.now n) (bad_rows rows.now n base (held_from stores.now 0 n) (take m checks)) (2 ^ n) }
{
    let mut dependencies = [0u64; 64];
    let mut dependents = [0u64; 64];
    judge_closed::order(&mut dependencies, &mut dependents, rows, n);
    let mut writers = [0u64; DISK_BLOCKS];
    judge_settled::fill_writers(&mut writers, stores, n);
    let mut runs = [0usize; DISK_BLOCKS];
    judge_settled::fill_runs(&mut runs, &base, &writers, n);
    let ties = Ties {
        dependencies: &dependencies,
        dependents: &dependents,
        n,
    };
    let setting = Setting {
        base: &base,
        stores,
        n,
        writers: &writers,
        runs: &runs,
    };
    let test = Test {
        ties,
        setting,
        checks: &checks[..m],
    };
    let none = Tally {
        valid: 0,
        bad: 0,
        best: NO_RANK,
    };
    let all = Between {
        chosen: 0,
        free: (1 << n) - 1,
    };
    let t = test.walk(none, all, 0);
    Judgement {
        valid: t.valid,
        bad: t.bad,
        shown: t.best % relation::SMALL_SETS,
    }
}
