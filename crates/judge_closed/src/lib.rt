// Valid schedules as closed sets of writes. A write is flagged with all that it depends on, and leaving one out
// leaves out all that depends on it: so every choice leads to a valid schedule, and how many lie between
// two sets is counted without going through those that are free of each other.
#![tactic(auto)]

ghost use Rattle.std.specs.Prelude.{◌≡◌, ◌&&◌, ◌%◌, ◌^◌, ◌<◌, ◌≤◌, get_or, bit_or};
ghost use Rattle.relation.specs.Bits.{with_bit, without};
ghost use Rattle.relation.specs.Tables.{Filled};
ghost use Rattle.model.specs.Limits.{most_main};
ghost use Rattle.model.specs.Test.{count_below};
ghost use Rattle.judge_schedules.specs.Valid.{Narrow};
ghost use Rattle.judge_closed.specs.Closed.{Order, Orders, valid_between, Choice, reached_row, reaching_row, alone};

// Write i and what its closed row reaches, of n writes.
fn dependency_row(row: u64, i: usize, n: usize) -> u64
    requires { (i < n) × (n ≤ most_main) }
    ensures { result ≡ with_bit row i % 2 ^ n }
{
    relation::with_bit(row, i) & ((1 << n) - 1)
}

// The dependencies of each of n writes, itself among them, by their closed rows.
fn fill_dependencies(dependencies: &mut [u64; 64], closed: &[u64; 64], n: usize)
    requires { n ≤ most_main }
    ensures { Filled (reached_row closed.now n) n dependencies.new }
{
    for i in 0..n {
        dependencies[i] = dependency_row(closed[i], i, n);
    }
}

// The writes that depend on write j, itself among them.
fn dependent_row(dependencies: &[u64; 64], j: usize, n: usize) -> u64
    requires { (j < 64) × (n ≤ most_main) }
    ensures { result ≡ reaching_row dependencies.now n j }
{
    let mut mask: u64 = 0;
    for i in 0..n {
        mask = relation::with_if(mask, i, relation::has_bit(dependencies[i], j));
    }
    mask
}

// The dependents of each of n writes, itself among them, by the dependencies of all.
fn fill_dependents(dependents: &mut [u64; 64], dependencies: &[u64; 64], n: usize)
    requires { n ≤ most_main }
    ensures { Filled (reaching_row dependencies.now n) n dependents.new }
{
    for j in 0..n {
        dependents[j] = dependent_row(dependencies, j, n);
    }
}

// The dependencies and the dependents of each of n writes over any number of steps, by their rows.
pub fn order(dependencies: &mut [u64; 64], dependents: &mut [u64; 64], rows: &[u64; 64], n: usize)
    requires { (n ≤ most_main) × Narrow rows.now n }
    ensures { Orders rows.now n dependencies.new dependents.new }
{
    let mut closed = *rows;
    relation::close(&mut closed, n);
    fill_dependencies(dependencies, &closed, n);
    fill_dependents(dependents, dependencies, n);
}

// The schedules that are looked at together: all that have what is chosen and, beyond it, only what is free.
#[derive(Clone, Copy)]
pub struct Between {
    pub chosen: u64,
    pub free: u64,
}

// What each of n writes depends on, and what depends on it.
#[derive(Clone, Copy)]
pub struct Ties<'a> {
    pub dependencies: &'a [u64; 64],
    pub dependents: &'a [u64; 64],
    pub n: usize,
    pub ghost few: { n ≤ most_main },
    pub ghost order: { Order n dependencies.now dependents.now },
}

// Whether a set has no free member but h.
fn is_alone(set: u64, free: u64, h: usize) -> bool
    requires { h < 64 }
    ensures { result ≡ alone set free h }
{
    set & free == 1 << h
}

impl Ties<'_> {
    // The schedules without write h, and so without all that depends on it.
    pub fn without(&self, schedules: Between, h: usize) -> Between
        requires { h < 64 }
        ensures chosen { result.chosen ≡ schedules.chosen }
        ensures free { result.free ≡ without schedules.free (get_or self.now.dependents.now h 0) }
    {
        Between {
            chosen: schedules.chosen,
            free: relation::without(schedules.free, self.dependents[h]),
        }
    }

    // The schedules with write h, and so with all that it depends on.
    pub fn with(&self, schedules: Between, h: usize) -> Between
        requires { h < 64 }
        ensures chosen { result.chosen ≡ bit_or schedules.chosen (get_or self.now.dependencies.now h 0) }
        ensures free { result.free ≡ without schedules.free (get_or self.now.dependencies.now h 0) }
    {
        let required = self.dependencies[h];
        Between {
            chosen: schedules.chosen | required,
            free: relation::without(schedules.free, required),
        }
    }

    // Whether h is tied to no other free write: it depends on none, and none depends on it.
    fn is_untied(&self, free: u64, h: usize) -> bool
        requires { h < 64 }
        ensures { result ≡ alone (get_or self.now.dependencies.now h 0) free h && alone (get_or self.now.dependents.now h 0) free h }
    {
        let required = self.dependencies[h];
        let requiring = self.dependents[h];
        is_alone(required, free, h) && is_alone(requiring, free, h)
    }

    // How many valid schedules these are. A free write that is tied to no other free one doubles them. `n` and
    // what is chosen are there for the contract: how many there are hangs on what is free and how it is tied.
    pub fn count_between(&self, schedules: Between) -> u64
        requires { Choice self.now.dependencies.now self.now.n schedules.chosen schedules.free }
        ensures { result ≡ count_below (valid_between self.now.dependencies.now self.now.n schedules.chosen schedules.free) (2 ^ self.now.n) }
    {
        if schedules.free == 0 {
            return 1;
        }
        let h = relation::highest(schedules.free);
        let out = self.count_between(self.without(schedules, h));
        if self.is_untied(schedules.free, h) {
            return 2 * out;
        }
        out + self.count_between(self.with(schedules, h))
    }
}
