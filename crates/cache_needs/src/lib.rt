// What writes need, as a table of masks, and what a write behind them needs and what depends on it. Writes are
// given by their columns.
#![tactic(auto)]

ghost use Rattle.std.specs.Prelude.{◌≡◌, cond, List, [], ℕ, ◌<◌, ◌≤◌, length, take};
ghost use Rattle.std.specs.Int.Bits.{bit_and, bit_or};
ghost use Rattle.relation.specs.Tables.{Filled, Blank};
ghost use Rattle.relation.specs.Finite.{rows_of};
ghost use Rattle.model.specs.Limits.{most_rules, most_held};
ghost use Rattle.model.specs.Needs.{needs};
ghost use Rattle.rule_match.specs.Held.{item_at, rules_of};
ghost use Rattle.cache_masks.specs.Columns.{columned, writes_of};
ghost use Rattle.cache_masks.specs.Masks.{same_mask, same_at};
ghost use Rattle.cache_masks.specs.Ranks.{rank_at, below_mask, bounds};
ghost use Rattle.cache_needs.specs.Needed.{needed_mask, dependent_mask};
ghost use Rattle.cache_needs.specs.Tables.{behind_of, earlier_at, Added, SmallOf, Prepared, Joins, Adds};

use cache_masks::Columns;
use model::{Rule, Write};
use rule_match::Rules;

// What a write to an address needs of the earlier ones, by the place, from 1, of the last of them: this one and
// what it needs itself; 0 is for none.
fn behind(rows: &[u64; model::MOST_HELD], place: usize) -> u64
    requires { place ≤ most_held }
    ensures { result ≡ behind_of rows.now place }
{
    if place == 0 {
        return 0;
    }
    relation::with_bit(rows[place - 1], place - 1)
}

// For each write the earlier ones to its address.
fn fill_earlier(rows: &mut [u64; model::MOST_HELD], addresses: &[u8; model::MOST_HELD], n: usize)
    requires { n ≤ most_held }
    ensures { Filled (earlier_at addresses.now) n rows.new }
{
    let mut last = [0u8; model::DISK_BLOCKS];
    for i in 0..n {
        let a = usize::from(addresses[i]);
        rows[i] = behind(rows, usize::from(last[a]));
        last[a] = (i + 1) as u8;
    }
}

// The tables that serve every rule: for each write those up to it with its name, and its epoch's rank; and for each
// rank the writes of lower ones.
#[derive(Drop)]
pub struct Tables {
    pub alike: [u64; model::MOST_HELD],
    pub ranks: [u8; model::MOST_HELD],
    pub belows: [u64; cache_masks::BOUNDS],
}

// Tables to be filled.
pub fn no_tables() -> Tables
    ensures { Blank bounds result.belows }
{
    Tables {
        alike: [0; model::MOST_HELD],
        ranks: [0; model::MOST_HELD],
        belows: [0; cache_masks::BOUNDS],
    }
}

// Each row of firsts gets those of seconds to whose epochs its own, by its rank, stands as a predicate says.
fn add_to(rows: &mut [u64; model::MOST_HELD], firsts: u64, seconds: u64, p: u16, tables: &Tables)
    requires { SmallOf firsts tables.now.ranks }
    ensures { Added rows.old firsts seconds p tables.now.ranks tables.now.belows 0 rows.new }
{
    let mut left = firsts;
    while left != 0 {
        let i = relation::lowest(left);
        let r = usize::from(tables.ranks[i]);
        rows[i] |= seconds & cache_masks::standing_in(&tables.belows, r, p);
        left = relation::without(left, 1 << i);
    }
}

// Rules that stand one behind the other, with one first name and one predicate: the first of them, where they end,
// and the writes that have the second name of one of them.
#[derive(Clone, Copy)]
struct Run {
    head: Rule,
    end: usize,
    seconds: u64,
}

// The rules from k on that go with rule k. alike has for each write those up to it with its name.
fn run_from(
    rules: Rules,
    k: usize,
    names: &[u16; model::MOST_HELD],
    n: usize,
    alike: &[u64; model::MOST_HELD],
) -> Run
    requires { (k < rules.count) × ((n ≤ most_held) × Filled (same_at names.now) n alike.now) }
    ensures { (result.head ≡ item_at rules k) × ((k < result.end) × ((result.end ≤ rules.count) × Joins names.now n rules k result.end result.seconds)) }
{
    let head = rules.items[k];
    let mut seconds = cache_masks::last_same(alike, names, head.second, n);
    for end in k + 1..rules.count {
        let rule = rules.items[end];
        if rule.first != head.first {
            return Run { head, end, seconds };
        }
        if rule.predicate != head.predicate {
            return Run { head, end, seconds };
        }
        seconds |= cache_masks::last_same(alike, names, rule.second, n);
    }
    Run {
        head,
        end: rules.count,
        seconds,
    }
}

// The rows of the first n writes before any rule: the earlier ones to the same address. And the tables that serve
// every rule, which the caller goes through: `add_run`.
pub fn prepare(rows: &mut [u64; model::MOST_HELD], tables: &mut Tables, columns: &Columns, n: usize)
    requires { Blank bounds tables.old.belows × (n ≤ most_held) }
    ensures { Prepared columns.now.names n tables.new × (Filled (earlier_at columns.now.addresses) n rows.new × (Filled (rank_at columns.now.epochs) n tables.new.ranks × Filled (below_mask tables.new.ranks n) bounds tables.new.belows)) }
{
    fill_earlier(rows, &columns.addresses, n);
    cache_masks::fill_same(&mut tables.alike, &columns.names, n);
    cache_masks::fill_ranks(&mut tables.ranks, &columns.epochs, n);
    cache_masks::fill_belows(&mut tables.belows, &tables.ranks, n);
}

// The rows get what the rules of the run from rule k on make their writes depend on, added at once. Answers where
// the run ends. (old are the rows before any rule.)
pub fn add_run(
    rows: &mut [u64; model::MOST_HELD],
    rules: Rules,
    k: usize,
    names: &[u16; model::MOST_HELD],
    n: usize,
    tables: &Tables,
) -> usize
    requires { (k < rules.count) × ((n ≤ most_held) × Prepared names.now n tables.now) }
    ensures { (k < result) × ((result ≤ rules.count) × ((old : List ℕ) → Adds (take k rules.items) names.now n tables.now.ranks tables.now.belows old rows.old → Adds (take result rules.items) names.now n tables.now.ranks tables.now.belows old rows.new)) }
{
    let run = run_from(rules, k, names, n, &tables.alike);
    let firsts = cache_masks::last_same(&tables.alike, names, run.head.first, n);
    add_to(rows, firsts, run.seconds, run.head.predicate, tables);
    run.end
}

// mask, and, if asked for, those of standing that have a name.
fn with_named(
    mask: u64,
    on: bool,
    names: &[u16; model::MOST_HELD],
    name: u16,
    n: usize,
    standing: u64,
) -> u64
    requires { n ≤ most_held }
    ensures { result ≡ cond on (bit_or mask (bit_and (same_mask names.now name n) standing)) mask }
{
    if !on {
        return mask;
    }
    mask | (cache_masks::same(names, name, n) & standing)
}

// Which of the first n writes w, behind them, needs.
pub fn needed(rules: Rules, columns: &Columns, n: usize, w: Write) -> u64
    requires { n < most_held }
    ensures { result ≡ needed_mask (rules_of rules) (writes_of columns.now n) w n }
{
    let compared = cache_masks::compare_epochs(&columns.epochs, w.epoch, n);
    let mut mask = cache_masks::same(&columns.addresses, w.address, n);
    for k in 0..rules.count {
        let rule = rules.items[k];
        let standing = cache_masks::standing(compared, rule.predicate);
        let on = w.name == rule.first;
        mask = with_named(mask, on, &columns.names, rule.second, n, standing);
    }
    mask
}

// Which of the first n writes depend on w, by their names and epochs, whatever their addresses are. (One function of
// this and `needed`, with names and epochs turned round and no address counting as parameters, would be no plainer.)
pub fn dependents(
    rules: Rules,
    names: &[u16; model::MOST_HELD],
    epochs: &[u32; model::MOST_HELD],
    n: usize,
    w: Write,
) -> u64
    requires { n ≤ most_held }
    ensures { (addresses : List ℕ) → result ≡ dependent_mask (rules_of rules) (columned addresses names.now epochs.now n) w n }
{
    let compared = cache_masks::turned(cache_masks::compare_epochs(epochs, w.epoch, n));
    let mut mask: u64 = 0;
    for k in 0..rules.count {
        let rule = rules.items[k];
        let standing = cache_masks::standing(compared, rule.predicate);
        let on = w.name == rule.second;
        mask = with_named(mask, on, names, rule.first, n, standing);
    }
    mask
}
