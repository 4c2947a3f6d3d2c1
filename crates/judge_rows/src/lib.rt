// The dependencies of a test's main writes as masks, a row for each write.
#![tactic(auto)]

ghost use Rattle.std.specs.Prelude.{◌≡◌, cond, ◌<◌, ◌≤◌, length, take};
ghost use Rattle.relation.specs.Bits.{with_bit};
ghost use Rattle.model.specs.Limits.{most_rules};
ghost use Rattle.model.specs.Rules.{matches};
ghost use Rattle.rule_match.specs.Held.{rules_of};
ghost use Rattle.judge_disks.specs.Packed.{labelled};
ghost use Rattle.judge_rows.specs.Rows.{rule_row, rows_from};

use model::Rule;
use rule_match::Rules;

// mask, with bit j set where a rule pairs the one label with the other.
fn with_match(mask: u64, j: usize, rule: Rule, one: u64, other: u64) -> u64
    requires { j < 64 }
    ensures { result ≡ cond (matches rule (labelled one) (labelled other)) (with_bit mask j) mask }
{
    let n = judge_disks::name_of(one);
    let t = judge_disks::epoch_of(one);
    let m = judge_disks::name_of(other);
    let u = judge_disks::epoch_of(other);
    if rule_match::matches(rule, n, t, m, u) {
        return relation::with_bit(mask, j);
    }
    mask
}

// Which of the first n labels of a column one label depends on by one rule.
fn rule_row(rule: Rule, labels: &[u64; model::MOST_INITIAL], n: usize, one: u64) -> u64
    requires { n ≤ 64 }
    ensures { result ≡ rule_row rule (labelled one) labels.now n }
{
    if judge_disks::name_of(one) != rule.first {
        return 0;
    }
    let mut mask: u64 = 0;
    for (j, other) in labels[..n].iter().enumerate() {
        mask = with_match(mask, j, rule, one, *other);
    }
    mask
}

// The dependencies of the first n labels of a column, computed once. (The rules are gone through by place, as the
// laws about them are: over a slice of those that are held the proof did not close.)
pub fn fill(rows: &mut [u64; 64], rules: Rules, labels: &[u64; model::MOST_INITIAL], n: usize)
    requires { n ≤ 64 }
    ensures { take n rows.new ≡ rows_from (rules_of rules) labels.now n n }
{
    'labels: for i in 0..n {
        let mut mask: u64 = 0;
        'rules: for k in 0..rules.count {
            mask |= rule_row(rules.items[k], labels, n, labels[i]);
        }
        rows[i] = mask;
    }
}
