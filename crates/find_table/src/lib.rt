// The table of the finder: for each set of candidates, whether some inconsistent schedule stays valid.
// Set x is bit x % 64 of word x / 64.
#![tactic(auto)]

ghost use Rattle.std.specs.Prelude.{◌≡◌, false, cond, ◌+◌, ◌/◌, ◌%◌, ◌^◌, ◌<◌, ◌≤◌, length, take, set, get_or};
ghost use Rattle.relation.specs.Bits.{with_bit};
ghost use Rattle.relation.specs.Tables.{Blank};
ghost use Rattle.model.specs.Limits.{most_initial, most_found, most_candidates, candidate_sets};
ghost use Rattle.model.specs.Check.{consistent};
ghost use Rattle.file_format.specs.Scan.{test_at};
ghost use Rattle.file_format.specs.Held.{Inside, Placed};
ghost use Rattle.rule_match.specs.Held.{rules_of};
ghost use Rattle.judge_disks.specs.Packed.{labelled, held_from};
ghost use Rattle.find_laws.specs.Hit.{marks, marked};
ghost use Rattle.find_candidates.specs.Tests.{tests_in, too_long};
ghost use Rattle.find_table.specs.Table.{set_words, matching, pairs, Facing, Widened, Forbids, Bounded, spoils, set_of, set_after, Adds, Joins, Shows, lacking, Lowered, Spreads};

use file_format::Extent;
use model::{Check, Rule};
use rule_match::Rules;

// The words of a table with a bit for each set.
pub const SET_WORDS: usize = model::CANDIDATE_SETS / 64;

// The most schedules of all writes of a test but the last.
const HALF_SCHEDULES: usize = model::FOUND_SCHEDULES / 2;

// The candidates that match two labels.
fn matching(cands: &[Rule], one: u64, other: u64) -> u64
    requires { length cands.now ≤ most_candidates }
    ensures { result ≡ matching cands.now (labelled one) (labelled other) (length cands.now) }
{
    let n = judge_disks::name_of(one);
    let t = judge_disks::epoch_of(one);
    let m = judge_disks::name_of(other);
    let u = judge_disks::epoch_of(other);
    let mut mask: u64 = 0;
    for (c, cand) in cands.iter().enumerate() {
        mask = relation::with_if(mask, c, rule_match::matches(*cand, n, t, m, u));
    }
    mask
}

// The candidates that match write k and each write before it, in this order and in the other.
fn face(
    out: &mut [u64; 64],
    back: &mut [u64; 64],
    cands: &[Rule],
    labels: &[u64; model::MOST_INITIAL],
    k: usize,
)
    requires { (length cands.now ≤ most_candidates) × (k < most_initial) }
    ensures { Facing (pairs cands.now (length cands.now) labels.now) k k out.new back.new }
{
    let last = labels[k];
    for j in 0..k {
        let other = labels[j];
        out[j] = matching(cands, last, other);
        back[j] = matching(cands, other, last);
    }
}

// The schedules of one more write, k: with it, the candidates match it and an unflagged write before
// it too; without it, a flagged write before it and it.
fn widen(
    table: &mut [u64; model::FOUND_SCHEDULES],
    outs: &[u64; HALF_SCHEDULES],
    backs: &[u64; HALF_SCHEDULES],
    k: usize,
)
    requires { k < most_found }
    ensures { Widened outs.now backs.now k table.old table.new (2 ^ k) }
{
    let size = 1usize << k;
    for s in 0..size {
        let w = table[s];
        table[size + s] = w | outs[size - 1 - s];
        table[s] = w | backs[s];
    }
}

// For each schedule of the n writes with these labels the set of the candidates that make it invalid.
fn forbid(
    table: &mut [u64; model::FOUND_SCHEDULES],
    cands: &[Rule],
    labels: &[u64; model::MOST_INITIAL],
    n: usize,
)
    requires { (length cands.now ≤ most_candidates) × (n ≤ most_found) }
    ensures { Forbids (pairs cands.now (length cands.now) labels.now) n table.new }
{
    let mut out = [0u64; 64];
    let mut back = [0u64; 64];
    let mut outs = [0u64; HALF_SCHEDULES];
    let mut backs = [0u64; HALF_SCHEDULES];
    table[0] = 0;
    for k in 0..n {
        face(&mut out, &mut back, cands, labels, k);
        relation::unite(&mut outs, &out, 0, k);
        relation::unite(&mut backs, &back, 0, k);
        widen(table, &outs, &backs, k);
    }
}

// Marks the set x of a schedule, unless that leaves a consistent disk.
fn mark_one(table: &mut [u64; SET_WORDS], x: usize, consistent: bool)
    requires { x < candidate_sets }
    ensures { table.new ≡ cond consistent table.old (set table.old (x / 64) (with_bit (get_or table.old (x / 64) 0) (x % 64))) }
{
    if consistent {
        return;
    }
    table[x / 64] = relation::with_bit(table[x / 64], x % 64);
}

// What the sets of a test are marked by: the candidates that make each of its schedules invalid, of all of
// them, its writes, near ones and far ones behind them, and its checks.
#[derive(Clone, Copy)]
struct Trial<'a> {
    forbidden: &'a [u64; model::FOUND_SCHEDULES],
    all: u64,
    stores: &'a [u64; model::MOST_INITIAL],
    near: usize,
    far: usize,
    checks: &'a [Check],
    ghost few: { near + far ≤ most_found },
    ghost bounded: { Bounded forbidden.now all (2 ^ (near + far)) },
}

impl Trial<'_> {
    // Whether a disk is consistent.
    fn holds(&self, disk: &[u32; model::DISK_BLOCKS]) -> bool
        ensures { result ≡ consistent self.now.checks.now disk.now }
    {
        for check in self.checks {
            if !judge_checks::check_holds(disk, *check) {
                return false;
            }
        }
        true
    }

    // Marks the sets of the inconsistent schedules that begin with x: mid is the disk that x leaves, and
    // the far writes are flagged in all ways. Where a set is marked, the disk is not made.
    fn mark_after(&self, table: &mut [u64; SET_WORDS], x: usize, mid: &[u32; model::DISK_BLOCKS])
        requires { x < 2 ^ self.now.near }
        ensures { Adds (spoils self.now.checks.now (held_from self.now.stores.now self.now.near self.now.far) mid.now) (set_after self.now.forbidden.now self.now.all x (2 ^ self.now.near)) (2 ^ self.now.far) table.old table.new }
    {
        let rows = 1usize << self.near;
        let columns = 1u64 << self.far;
        let mut disk = *mid;
        for y in 0..columns {
            let set = (self.all - self.forbidden[x + rows * y as usize]) as usize;
            if relation::has_bit(table[set / 64], set % 64) {
                continue;
            }
            judge_disks::apply(&mut disk, self.stores, self.near, self.far, y);
            let consistent = self.holds(&disk);
            judge_disks::restore(&mut disk, mid, self.stores, self.near, self.far);
            mark_one(table, set, consistent);
        }
    }

    // Marks the sets of all inconsistent schedules, from a base.
    fn mark_by(&self, table: &mut [u64; SET_WORDS], base: &[u32; model::DISK_BLOCKS])
        ensures { Adds (spoils self.now.checks.now (held_from self.now.stores.now 0 (self.now.near + self.now.far)) base.now) (set_of self.now.forbidden.now self.now.all) (2 ^ (self.now.near + self.now.far)) table.old table.new }
    {
        let rows = 1usize << self.near;
        for x in 0..rows {
            let mut mid = *base;
            judge_disks::apply(&mut mid, self.stores, 0, self.near, x as u64);
            self.mark_after(table, x, &mid);
        }
    }
}

// Marks the sets of all inconsistent schedules of a test.
fn mark_test(table: &mut [u64; SET_WORDS], cands: Rules, file: &[u8], e: Extent)
    requires { (cands.count ≤ most_candidates) × (Inside file.now e × (length (test_at file.now e).main ≤ most_found)) }
    ensures { Joins (marks (rules_of cands) (test_at file.now e)) table.old table.new }
{
    let test = judge_loading::load_test(file, e);
    let checks = judge_loading::load_checks(file, e);
    let mut forbidden = [0u64; model::FOUND_SCHEDULES];
    forbid(
        &mut forbidden,
        &cands.items[..cands.count],
        &test.labels,
        test.main,
    );
    let near = test.main / 2;
    let trial = Trial {
        forbidden: &forbidden,
        all: (1u64 << cands.count) - 1,
        stores: &test.stores,
        near,
        far: test.main - near,
        checks: &checks[..test.checks],
    };
    trial.mark_by(table, &test.base);
}

// Marks the sets of all inconsistent schedules of all tests, none of which is too long.
pub fn mark_all(
    table: &mut [u64; SET_WORDS],
    cands: Rules,
    file: &[u8],
    tests: [Extent; model::MOST_TESTS],
    n: usize,
)
    requires { (cands.count ≤ most_candidates) × (Placed file.now (tests_in file.now) tests n × ((too_long (tests_in file.now) ≡ false) × Blank set_words table.old)) }
    ensures { Shows (marked (rules_of cands) (tests_in file.now)) table.new candidate_sets }
{
    for t in (0..n).rev() {
        mark_test(table, cands, file, tests[t]);
    }
}

// The bits of a word whose numbers lack candidate b: the first 2^b of every 2^(b + 1).
fn lacking(b: usize) -> u64
    requires { b < 6 }
    ensures { result ≡ lacking b }
{
    u64::MAX / ((1u64 << (1u64 << b)) + 1)
}

// Hands the marks down from the sets with candidate b to those without, where both are in one word.
fn lower_within(table: &mut [u64; SET_WORDS], b: usize, words: usize)
    requires { (b < 6) × (words ≤ set_words) }
    ensures { Lowered b table.old table.new words }
{
    let step = 1u64 << b;
    let without = lacking(b);
    for word in &mut table[..words] {
        *word = *word | ((*word >> step) & without);
    }
}

// The same where the sets with candidate b are in a word of their own. (By numbers, since another word of the
// table is read; and a function of its own, since here nothing is shifted.)
fn lower_across(table: &mut [u64; SET_WORDS], b: usize, words: usize)
    requires { ((6 ≤ b) × (b < most_candidates)) × (words ≤ set_words) }
    ensures { Lowered b table.old table.new words }
{
    for i in 0..words {
        let other = relation::with_bit(i as u64, b - 6) as usize;
        table[i] = table[i] | table[other];
    }
}

fn lower(table: &mut [u64; SET_WORDS], b: usize, words: usize)
    requires { (b < most_candidates) × (words ≤ set_words) }
    ensures { Lowered b table.old table.new words }
{
    if b < 6 {
        lower_within(table, b, words);
        return;
    }
    lower_across(table, b, words);
}

// Hands the marks down to all parts of the marked sets of n candidates.
pub fn lower_all(table: &mut [u64; SET_WORDS], n: usize)
    requires { n ≤ most_candidates }
    ensures { Spreads n n table.old table.new }
{
    let words = (1usize << n).div_ceil(64);
    for b in 0..n {
        lower(table, b, words);
    }
}
