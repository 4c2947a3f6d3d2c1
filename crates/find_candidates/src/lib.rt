// The candidates of a file, sorted.
#![tactic(auto)]

ghost use Rattle.std.specs.Prelude.{◌≡◌, ◌+◌, ◌<◌, ◌≤◌};
ghost use Rattle.model.specs.Limits.{most_initial, most_candidates};
ghost use Rattle.model.specs.Rules.{label};
ghost use Rattle.model.specs.Find.{pairing, candidates_of};
ghost use Rattle.file_format.specs.Held.{Placed};
ghost use Rattle.judge_disks.specs.Packed.{labelled};
ghost use Rattle.find_sets.specs.Kept.{Keeps};
ghost use Rattle.find_candidates.specs.Tests.{Pairs, Traces, tests_in};

use file_format::Extent;
use model::Rule;
use rule_match::Rules;
use std::cmp::Ordering;

// The one rule that matches the labels (n, t) and (m, u).
#[tactic(auto, unfolding(model::specs::Find::pairing))]
fn pairing(n: u16, t: u32, m: u16, u: u32) -> Rule
    ensures { result ≡ pairing (label n t) (label m u) }
{
    let predicate = match t.cmp(&u) {
        Ordering::Equal => 0,
        Ordering::Greater => 1,
        Ordering::Less => 2,
    };
    Rule {
        first: n,
        predicate,
        second: m,
    }
}

// The one rule that matches two labels.
fn rule_of(one: u64, other: u64) -> Rule
    ensures { result ≡ pairing (labelled one) (labelled other) }
{
    let n = judge_disks::name_of(one);
    let t = judge_disks::epoch_of(one);
    let m = judge_disks::name_of(other);
    let u = judge_disks::epoch_of(other);
    pairing(n, t, m, u)
}

// The candidates from write i to the n writes with these labels.
fn from_write(c: &mut Rules, labels: &[u64; model::MOST_INITIAL], n: usize, i: usize)
    requires { (c.old.count ≤ most_candidates + 1) × ((n ≤ most_initial) × (i < n)) }
    ensures { (c.new.count ≤ most_candidates + 1) × Pairs labels.now n i n c.old c.new }
{
    let one = labels[i];
    for j in 0..n {
        if i == j {
            continue;
        }
        find_sets::insert(c, rule_of(one, labels[j]));
    }
}

// The candidates of the n writes with these labels.
fn from_trace(c: &mut Rules, labels: &[u64; model::MOST_INITIAL], n: usize)
    requires { (c.old.count ≤ most_candidates + 1) × (n ≤ most_initial) }
    ensures { (c.new.count ≤ most_candidates + 1) × Traces labels.now n n c.old c.new }
{
    for i in 0..n {
        from_write(c, labels, n, i);
    }
}

// The candidates of a file's tests; more than there may be, if there are more.
pub fn collect(file: &[u8], tests: [Extent; model::MOST_TESTS], n: usize) -> Rules
    requires { Placed file.now (tests_in file.now) tests n }
    ensures { Keeps (candidates_of (tests_in file.now)) result }
{
    let mut out = rule_match::none();
    for t in (0..n).rev() {
        let test = judge_loading::load_test(file, tests[t]);
        from_trace(&mut out, &test.labels, test.main);
    }
    out
}
