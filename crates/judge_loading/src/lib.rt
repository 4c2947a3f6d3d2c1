// A test of a file, loaded: its initial disk, its main writes as columns, its checks. What stands above
// hands on a file and an extent, and knows no offset and no stride.
#![tactic(auto)]

ghost use Rattle.std.specs.Prelude.{◌≡◌, ◌≤◌, length, take};
ghost use Rattle.model.specs.Limits.{most_initial, most_checks};
ghost use Rattle.file_format.specs.File.{is_write, is_check};
ghost use Rattle.file_format.specs.Scan.{field_place, writes_at, checks_at, test_at};
ghost use Rattle.file_format.specs.Held.{Fields, Inside};
ghost use Rattle.judge_disks.specs.Packed.{Stores, Labels};
ghost use Rattle.judge_loading.specs.Loaded.{LoadsTest, LoadsChecks};

use file_format::Extent;
use model::Check;

// A test without its checks: the initial disk, what a disk takes of each main write, the main writes'
// labels, and how many main writes and checks there are.
#[derive(Clone, Copy)]
pub struct Loaded {
    pub base: [u32; model::DISK_BLOCKS],
    pub stores: [u64; model::MOST_INITIAL],
    pub labels: [u64; model::MOST_INITIAL],
    pub main: usize,
    pub checks: usize,
}

// The n writes whose fields stand from `from` on, as two columns, and where they end. (Of its own in the program
// too: `load_test`, which calls it twice, is then short enough to stand in its callers, and its columns are not
// cleared twice.)
#[inline(never)]
fn load_writes(
    stores: &mut [u64; model::MOST_INITIAL],
    labels: &mut [u64; model::MOST_INITIAL],
    file: &[u8],
    from: usize,
    n: usize,
) -> usize
    requires { (n ≤ most_initial) × Fields is_write file.now from n }
    ensures { (result ≡ field_place file.now from n) × (Stores (writes_at file.now from n) stores.new × Labels (writes_at file.now from n) labels.new) }
{
    let mut at = from;
    for i in 0..n {
        let w = file_fields::write_at(file, at);
        stores[i] = judge_disks::pack_store(w);
        labels[i] = judge_disks::pack_label(w);
        at = file_format::end_of(file, at);
    }
    at
}

// The test that stands at an extent, without its checks.
#[inline]
pub fn load_test(file: &[u8], e: Extent) -> Loaded
    requires { Inside file.now e }
    ensures { LoadsTest (test_at file.now e) result }
{
    let mut stores = [0u64; model::MOST_INITIAL];
    let mut labels = [0u64; model::MOST_INITIAL];
    let main_at = load_writes(&mut stores, &mut labels, file, e.at, e.initial);
    let mut base = [0u32; model::DISK_BLOCKS];
    judge_disks::apply(&mut base, &stores, 0, e.initial, judge_disks::ALL_FLAGS);
    load_writes(&mut stores, &mut labels, file, main_at, e.main);
    Loaded {
        base,
        stores,
        labels,
        main: e.main,
        checks: e.checks,
    }
}

// Where the n fields from `from` on, which are writes, end. (load_writes walks them too: a walk for both would
// take a closure that fills the columns, and of what that changes a proof learns nothing.)
fn pass_writes(file: &[u8], from: usize, n: usize) -> usize
    requires { Fields is_write file.now from n }
    ensures { result ≡ field_place file.now from n }
{
    let mut at = from;
    for i in 0..n {
        at = file_format::end_of(file, at);
    }
    at
}

// The n checks whose fields stand from `from` on.
fn file_checks(file: &[u8], from: usize, n: usize) -> [Check; model::MOST_CHECKS]
    requires { (n ≤ most_checks) × Fields is_check file.now from n }
    ensures { take n result ≡ checks_at file.now from n }
{
    let mut checks = [Check::Range(0); model::MOST_CHECKS];
    let mut at = from;
    for i in 0..n {
        checks[i] = file_fields::check_at(file, at);
        at = file_format::end_of(file, at);
    }
    checks
}

// The checks of the test that stands at an extent.
pub fn load_checks(file: &[u8], e: Extent) -> [Check; model::MOST_CHECKS]
    requires { Inside file.now e }
    ensures { LoadsChecks (test_at file.now e) result }
{
    let main_at = pass_writes(file, e.at, e.initial);
    let checks_at = pass_writes(file, main_at, e.main);
    file_checks(file, checks_at, e.checks)
}
