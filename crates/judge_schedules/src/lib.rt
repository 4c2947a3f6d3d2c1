// Which schedules of a trace are valid, by a table of rows: row i is the mask of the writes that write
// i depends on; and the smallest valid one that flags a write.
#![tactic(auto)]

ghost use Rattle.std.specs.Prelude.{◌≡◌, ◌^◌, ◌<◌, ◌≤◌, length};
ghost use Rattle.model.specs.Limits.{most_main};
ghost use Rattle.judge_schedules.specs.Valid.{valid_rows, Narrow, Widens, Brings, Completes};

// Whether a schedule of n writes is valid: all that its flagged writes depend on is flagged. The loop ends
// at the first flagged write that it finds with an unflagged dependency.
pub fn is_valid(rows: &[u64; 64], n: usize, s: u64) -> bool
    requires { (n ≤ most_main) × (s < 2 ^ n) }
    ensures { result ≡ valid_rows rows.now n s }
{
    let mut left = s;
    while left != 0 {
        let i = relation::highest(left);
        let row = rows[i];
        if row & s != row {
            return false;
        }
        left = relation::without(left, 1 << i);
    }
    true
}

// A set of writes, with what each of them depends on.
fn with_rows(rows: &[u64; 64], n: usize, s: u64) -> u64
    requires { (n ≤ most_main) × ((s < 2 ^ n) × Narrow rows.now n) }
    ensures { Widens rows.now n s result }
{
    let mut set = s;
    let mut left = s;
    while left != 0 {
        let i = relation::highest(left);
        set |= rows[i];
        left = relation::without(left, 1 << i);
    }
    set
}

// What is flagged with write i in every valid schedule: what its writes depend on is flagged too, until the
// schedule is valid.
fn bring(rows: &[u64; 64], n: usize, i: usize) -> u64
    requires { (n ≤ most_main) × ((i < n) × Narrow rows.now n) }
    ensures { Brings rows.now n i result }
{
    let mut set: u64 = 1 << i;
    while !is_valid(rows, n, set) {
        set = with_rows(rows, n, set);
    }
    set
}

// A table of rows turned into one of what each write brings. A row that is turned serves the next ones. The
// judge has the same sets, and their converse, by a closure (judge_closed::order); here the test makes them.
pub fn complete(rows: &mut [u64; 64], n: usize)
    requires { (n ≤ most_main) × Narrow rows.old n }
    ensures { Completes rows.old n rows.new }
{
    for i in 0..n {
        rows[i] = bring(rows, n, i);
    }
}
