// Sets of numbers below 64 as masks, and relations on such numbers as tables of 64 rows.
#![tactic(auto)]

ghost use Rattle.std.specs.Prelude.{◌≡◌, cond, ◌+◌, ◌-◌, ◌^◌, ◌<◌, ◌≤◌, length, take};
ghost use Rattle.relation.specs.Rank.{small_sets, rank};
ghost use Rattle.relation.specs.Bits.{bit, with_bit, without, Highest, Lowest};
ghost use Rattle.relation.specs.Finite.{related, joined, round, closed, has_ring};
ghost use Rattle.relation.specs.Union.{Unites, Doubled};
ghost use Rattle.relation.specs.Peel.{peeled_one, peeled, peeled_back};
ghost use Rattle.relation.specs.Reach.{reached, closes_ring};

// Whether bit i of mask is set.
pub fn has_bit(mask: u64, i: usize) -> bool
    requires { i < 64 }
    ensures { result ≡ bit mask i }
{
    (mask >> i) & 1 == 1
}

// mask with bit i set.
pub fn with_bit(mask: u64, i: usize) -> u64
    requires { i < 64 }
    ensures { result ≡ with_bit mask i }
{
    mask | (1 << i)
}

// mask, with bit i set if asked for.
pub fn with_if(mask: u64, i: usize, on: bool) -> u64
    requires { i < 64 }
    ensures { result ≡ cond on (with_bit mask i) mask }
{
    if on {
        return with_bit(mask, i);
    }
    mask
}

// The members of mask that are not in other.
pub fn without(mask: u64, other: u64) -> u64
    ensures { result ≡ without mask other }
{
    mask & !other
}

// The highest member of mask.
pub fn highest(mask: u64) -> usize
    requires { 0 < mask }
    ensures { Highest mask result × (result < 64) }
{
    63 - mask.leading_zeros() as usize
}

// The lowest member of mask.
pub fn lowest(mask: u64) -> usize
    requires { 0 < mask }
    ensures { Lowest mask result × (result < 64) }
{
    mask.trailing_zeros() as usize
}

// How many sets of numbers below 32 there are.
pub const SMALL_SETS: u64 = 1 << 32;

// A set's rank among these: those with fewer members come before those with more, and of as many the smaller
// number first.
pub fn rank(set: u64) -> u64
    requires { set < small_sets }
    ensures { result ≡ rank set }
{
    u64::from(set.count_ones()) * SMALL_SETS + set
}

// row, with what k reaches where row reaches k.
fn join(row: u64, through: u64, k: usize) -> u64
    requires { k < 64 }
    ensures { result ≡ joined k through row }
{
    if has_bit(row, k) {
        return row | through;
    }
    row
}

// Each of the first n rows that reaches k reaches all that k reaches.
fn join_all(rows: &mut [u64], k: usize, n: usize)
    requires { (k < n) × ((n ≤ length rows.old) × (n ≤ 64)) }
    ensures { take n rows.new ≡ take n (round k rows.old) }
{
    let through = rows[k];
    for row in &mut rows[..n] {
        *row = join(*row, through, k);
    }
}

// Warshall's closure of the relation of the first n rows, in place.
pub fn close(rows: &mut [u64], n: usize)
    requires { (n ≤ length rows.old) × (n ≤ 64) }
    ensures { take n rows.new ≡ take n (closed n rows.old) }
{
    for k in 0..n {
        join_all(rows, k, n);
    }
}

// All numbers below n.
pub fn all_below(n: usize) -> u64
    requires { n ≤ 64 }
    ensures { result ≡ 2 ^ n - 1 }
{
    if n == 64 {
        return u64::MAX;
    }
    (1 << n) - 1
}

// What is left without i, where its row meets nothing of it.
fn peel_one(row: u64, left: u64, i: usize) -> u64
    requires { i < 64 }
    ensures { result ≡ peeled_one row left i }
{
    if row & left != 0 {
        return left;
    }
    without(left, 1 << i)
}

// What a pass over the numbers below n leaves, from 0 up.
fn peel(rows: &[u64], n: usize, left: u64) -> u64
    requires { (n ≤ length rows.now) × (n ≤ 64) }
    ensures { result ≡ peeled rows.now left n }
{
    let mut rest = left;
    for (i, row) in rows[..n].iter().enumerate() {
        rest = peel_one(*row, rest, i);
    }
    rest
}

// And from the highest down. (By numbers: `.iter().enumerate().rev()` goes by what it yielded, and is no plainer to prove.)
fn peel_back(rows: &[u64], n: usize, left: u64) -> u64
    requires { (n ≤ length rows.now) × (n ≤ 64) }
    ensures { result ≡ peeled_back rows.now left n }
{
    let mut rest = left;
    for i in (0..n).rev() {
        rest = peel_one(rows[i], rest, i);
    }
    rest
}

// Whether the relation of the first n rows has a ring: passes are made up and down until nothing is left, or
// one leaves all as it was. Where rows point to earlier numbers only, the first pass leaves nothing, and
// where they point to later ones, the second.
pub fn has_ring(rows: &[u64], n: usize) -> bool
    requires { (n ≤ length rows.now) × (n ≤ 64) }
    ensures { result ≡ has_ring (related rows.now) n }
{
    let mut left = all_below(n);
    while left != 0 {
        let next = peel(rows, n, left);
        if next == left {
            return true;
        }
        if next == 0 {
            return false;
        }
        left = peel_back(rows, n, next);
    }
    false
}

// A set with all that is reached from its members: the row of each member that is left is looked at, and what
// is new is left in its turn.
fn reach(rows: &[u64], from: u64) -> u64
    requires { length rows.now ≡ 64 }
    ensures { result ≡ reached rows.now from }
{
    let mut set = from;
    let mut left = from;
    while left != 0 {
        let j = lowest(left);
        let new = without(rows[j], set);
        let rest = without(left, 1 << j);
        set = set | new;
        left = rest | new;
    }
    set
}

// Whether a number more closes a ring, where it needs some numbers and others depend on it: some of these are
// reached from those.
pub fn closes_ring(rows: &[u64], needed: u64, dependents: u64) -> bool
    requires { length rows.now ≡ 64 }
    ensures { result ≡ closes_ring rows.now needed dependents }
{
    if dependents == 0 {
        return false;
    }
    reach(rows, needed) & dependents != 0
}

// The entries from 2^i on: those below, each joined with a row.
fn double(table: &mut [u64], i: usize, row: u64)
    requires { (i < 32) × (2 ^ (i + 1) ≤ length table.old) }
    ensures { Doubled i row table.old table.new (2 ^ i) }
{
    let size = 1usize << i;
    for x in 0..size {
        table[size + x] = table[x] | row;
    }
}

// The unions of the k rows from a place on: entry x is that of the members of x.
pub fn unite(table: &mut [u64], rows: &[u64; 64], from: usize, k: usize)
    requires { (2 ^ k ≤ length table.old) × ((k ≤ 32) × (from + k ≤ 64)) }
    ensures { Unites rows.now from k table.new }
{
    table[0] = 0;
    for i in 0..k {
        double(table, i, rows[from + i]);
    }
}
