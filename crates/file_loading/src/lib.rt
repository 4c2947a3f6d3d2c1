// A file's rules, loaded.
#![tactic(auto)]

ghost use Rattle.std.specs.Prelude.{◌≡◌, ◌≤◌};
ghost use Rattle.model.specs.Limits.{most_rules};
ghost use Rattle.rule_match.specs.Held.{rules_of};
ghost use Rattle.file_format.specs.File.{is_rule};
ghost use Rattle.file_format.specs.Scan.{rules_at};
ghost use Rattle.file_format.specs.Held.{Fields};

use rule_match::Rules;

// The first n fields of a file, which are rules.
pub fn file_rules(file: &[u8], n: usize) -> Rules
    requires { (n ≤ most_rules) × Fields is_rule file.now 0 n }
    ensures { (rules_of result ≡ rules_at file.now n) × (result.count ≡ n) }
{
    let mut out = rule_match::none();
    out.count = n;
    let mut at = 0;
    for i in 0..n {
        out.items[i] = file_fields::rule_at(file, at);
        at = file_format::end_of(file, at);
    }
    out
}
