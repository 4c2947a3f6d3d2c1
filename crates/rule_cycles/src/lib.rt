// Whether labels can form a ring of dependencies.
#![tactic(auto)]

ghost use Rattle.std.specs.Prelude.{◌≡◌, cond, ◌%◌, ◌^◌, ◌<◌, ◌≤◌, eqb, length, take};
ghost use Rattle.std.specs.Int.Bits.{bit_and};
ghost use Rattle.relation.specs.Bits.{bit, mask_of, without};
ghost use Rattle.relation.specs.Tables.{Blank};
ghost use Rattle.relation.specs.Finite.{related, rows_of, closed, has_ring};
ghost use Rattle.model.specs.Limits.{most_rules};
ghost use Rattle.model.specs.Cyclic.{leads, has, equal_leads, meets, cyclic};
ghost use Rattle.rule_match.specs.Held.{rules_of};
ghost use Rattle.rule_cycles.specs.Links.{starts, linked, Buckets, near, Suspects, meets_by};

use model::Rule;
use rule_match::Rules;

// All numbers below 64, and so all rules.
const ALL: u64 = u64::MAX;

// The rules with a predicate.
fn having(rules: &[Rule], predicate: u16) -> u64
    requires { length rules.now ≤ most_rules }
    ensures { result ≡ mask_of (has rules.now predicate) (length rules.now) }
{
    let mut mask: u64 = 0;
    for (i, rule) in rules.iter().enumerate() {
        mask = relation::with_if(mask, i, rule.predicate == predicate);
    }
    mask
}

// The rules with a first name. (It and `having` ask another field each: a closure for it would be no shorter.)
fn starting(rules: &[Rule], name: u16) -> u64
    requires { length rules.now ≤ most_rules }
    ensures { result ≡ mask_of (starts rules.now name) (length rules.now) }
{
    let mut mask: u64 = 0;
    for (j, rule) in rules.iter().enumerate() {
        mask = relation::with_if(mask, j, name == rule.first);
    }
    mask
}

// The rules of a set among those that rule i leads to, where it is in the set too.
fn row(led: u64, i: usize, among: u64) -> u64
    requires { i < 64 }
    ensures { result ≡ cond (bit among i) (bit_and led among) 0 }
{
    if !relation::has_bit(among, i) {
        return 0;
    }
    led & among
}

// The table of which rule of a set leads to which.
fn fill(rows: &mut [u64; model::MOST_RULES], rules: &[Rule], among: u64)
    requires { length rules.now ≤ most_rules }
    ensures { take (length rules.now) rows.new ≡ rows_of (linked among rules.now) (length rules.now) }
{
    for (i, rule) in rules.iter().enumerate() {
        rows[i] = row(starting(rules, rule.second), i, among);
    }
}

// The lowest six bits of a name.
fn bucket(name: u16) -> usize
    ensures { (result ≡ name % 64) × (result < 64) }
{
    usize::from(name) % 64
}

// The rules by the lowest six bits of their first names.
fn fill_buckets(buckets: &mut [u32; 64], rules: &[Rule])
    requires { (length rules.now ≤ most_rules) × Blank 64 buckets.old }
    ensures { Buckets rules.now (length rules.now) buckets.new }
{
    for (j, rule) in rules.iter().enumerate() {
        let b = bucket(rule.first);
        buckets[b] = relation::with_bit(u64::from(buckets[b]), j) as u32;
    }
}

// A row of i, without i itself but where i is a = rule: a > or a < rule makes no ring by itself.
fn apart(row: u64, i: usize, predicate: u16) -> u64
    requires { i < 64 }
    ensures { result ≡ cond (eqb predicate 0) row (without row (2 ^ i)) }
{
    if predicate == 0 {
        return row;
    }
    relation::without(row, 1 << i)
}

// The table of which rule may lead to which of a set, by buckets.
fn fill_near(rows: &mut [u64; model::MOST_RULES], buckets: &[u32; 64], rules: &[Rule], among: u64)
    requires { (length rules.now ≤ most_rules) × Buckets rules.now (length rules.now) buckets.now }
    ensures { take (length rules.now) rows.new ≡ rows_of (near among rules.now) (length rules.now) }
{
    for (i, rule) in rules.iter().enumerate() {
        let row = u64::from(buckets[bucket(rule.second)]) & among;
        rows[i] = apart(row, i, rule.predicate);
    }
}

// Whether rules of a set may lead round, told by the lowest bits of their names. Where they may not, there is
// no ring of = rules, nor one of a > and a < rule; where they may, names have to be compared, each with each.
// (It, equal_ring and mixed_ring are lent one table to work in, whatever it holds.)
fn may_ring(rows: &mut [u64; model::MOST_RULES], rules: &[Rule], among: u64) -> bool
    requires { length rules.now ≤ most_rules }
    ensures { result ≡ has_ring (near among rules.now) (length rules.now) }
{
    if among == 0 {
        return false;
    }
    let mut buckets = [0u32; 64];
    fill_buckets(&mut buckets, rules);
    fill_near(rows, &buckets, rules, among);
    relation::has_ring(rows, rules.len())
}

// Whether rule is a < rule, and i and j reach each other.
fn meets_at(rows: &[u64; model::MOST_RULES], rule: Rule, i: usize, j: usize) -> bool
    requires { (i < most_rules) × (j < most_rules) }
    ensures { result ≡ meets_by rule rows.now i j }
{
    if rule.predicate != 2 {
        return false;
    }
    if relation::has_bit(rows[i], j) {
        return relation::has_bit(rows[j], i);
    }
    false
}

// Whether some > rule and some < rule reach each other.
fn rules_meet(rows: &[u64; model::MOST_RULES], rules: &[Rule]) -> bool
    requires { length rules.now ≤ most_rules }
    ensures { result ≡ meets rules.now rows.now }
{
    'greater: for (i, rule) in rules.iter().enumerate() {
        if rule.predicate != 1 {
            continue 'greater;
        }
        'less: for (j, other) in rules.iter().enumerate() {
            if meets_at(rows, *other, i, j) {
                return true;
            }
        }
    }
    false
}

// The rules that a ring can be made of: the = rules, and all where there are both > and < rules.
fn suspects(rules: &[Rule]) -> u64
    requires { length rules.now ≤ most_rules }
    ensures { Suspects rules.now (length rules.now) result }
{
    let equals = having(rules, 0);
    if having(rules, 1) == 0 {
        return equals;
    }
    if having(rules, 2) == 0 {
        return equals;
    }
    ALL
}

// Whether rules of a set lead round, with the table of which leads to which.
fn leads_round(rows: &mut [u64; model::MOST_RULES], rules: &[Rule], among: u64) -> bool
    requires { length rules.now ≤ most_rules }
    ensures { take (length rules.now) rows.new ≡ rows_of (linked among rules.now) (length rules.now) × (result ≡ has_ring (related rows.new) (length rules.now)) }
{
    fill(rows, rules, among);
    relation::has_ring(rows, rules.len())
}

// Whether = rules lead round.
fn equal_ring(rows: &mut [u64; model::MOST_RULES], rules: &[Rule]) -> bool
    requires { length rules.now ≤ most_rules }
    ensures { result ≡ has_ring (equal_leads rules.now) (length rules.now) }
{
    leads_round(rows, rules, having(rules, 0))
}

// Whether rules lead round by way of a > and a < rule. Where nothing leads round, nothing is closed.
fn mixed_ring(rows: &mut [u64; model::MOST_RULES], rules: &[Rule]) -> bool
    requires { length rules.now ≤ most_rules }
    ensures { result ≡ meets rules.now (closed (length rules.now) (rows_of (leads rules.now) (length rules.now))) }
{
    if !leads_round(rows, rules, ALL) {
        return false;
    }
    relation::close(rows, rules.len());
    rules_meet(rows, rules)
}

// Whether the rules are cyclic. Most sets are told by their names' lowest bits.
pub fn is_cyclic(rules: Rules) -> bool
    ensures { result ≡ cyclic (rules_of rules) }
{
    let held = rules.as_slice();
    let among = suspects(held);
    let mut rows = [0u64; model::MOST_RULES];
    if !may_ring(&mut rows, held, among) {
        return false;
    }
    if equal_ring(&mut rows, held) {
        return true;
    }
    if among != ALL {
        return false;
    }
    mixed_ring(&mut rows, held)
}
