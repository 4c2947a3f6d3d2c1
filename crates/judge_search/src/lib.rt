// The search for the smallest bad schedule: through those among which it is, in order of their flags and
// then of their numbers, so that the first bad one is it.
#![tactic(auto)]

ghost use Rattle.std.specs.Prelude.{◌≡◌, ◌^◌, ◌<◌, ◌≤◌, length, take};
ghost use Rattle.model.specs.Limits.{most_main, most_checks};
ghost use Rattle.judge_disks.specs.Packed.{held_from};
ghost use Rattle.judge_schedules.specs.Valid.{bad_rows, Narrow};
ghost use Rattle.judge_search.specs.Search.{repeated, leaves_inconsistent, StopsAt, verdict_below};

use judge_suspects::MOST_LISTED;
use model::{Check, DISK_BLOCKS, MOST_CHECKS, MOST_INITIAL};

// Whether an entry of a list is the one before it once more.
fn is_repeated(list: &[u64], k: usize) -> bool
    requires { k < length list.now }
    ensures { result ≡ repeated list.now k }
{
    if k == 0 {
        return false;
    }
    list[k - 1] == list[k]
}

// The search through the schedules of n writes whose ranks are listed, and through the checks: all its loops
// are left at the first schedule that leaves an inconsistent disk.
fn search_by(
    list: &[u64],
    base: &[u32; DISK_BLOCKS],
    stores: &[u64; MOST_INITIAL],
    n: usize,
    checks: &[Check],
) -> Option<u64>
    requires { n ≤ most_main }
    ensures { StopsAt (leaves_inconsistent base.now (held_from stores.now 0 n) checks.now) list.now (length list.now) result }
{
    let mut disk = *base;
    let mut verdict = None;
    // The labels are a form of the program that the project asks for (docs/DECISIONS.md, "Forms").
    'search: for (k, rank) in list.iter().enumerate() {
        if is_repeated(list, k) {
            continue 'search;
        }
        let s = *rank % relation::SMALL_SETS;
        judge_disks::apply(&mut disk, stores, 0, n, s);
        'checks: for c in checks {
            if !judge_checks::check_holds(&disk, *c) {
                verdict = Some(s);
                break 'search;
            }
        }
        judge_disks::restore(&mut disk, base, stores, 0, n);
    }
    verdict
}

// The smallest bad schedule of the first n writes of a table of stores, by a table of rows, if there is one.
// The table of rows is turned into one of what each write brings.
pub fn smallest_bad(
    rows: &mut [u64; 64],
    base: &[u32; DISK_BLOCKS],
    stores: &[u64; MOST_INITIAL],
    n: usize,
    checks: [Check; MOST_CHECKS],
    m: usize,
) -> Option<u64>
    requires { (n ≤ most_main) × ((m ≤ most_checks) × Narrow rows.old n) }
    ensures { result ≡ verdict_below (bad_rows rows.old n base.now (held_from stores.now 0 n) (take m checks)) (2 ^ n) }
{
    let mut list = [0u64; MOST_LISTED];
    let many = judge_suspects::suspects(&mut list, rows, stores, n, checks, m);
    search_by(&list[..many], base, stores, n, &checks[..m])
}
