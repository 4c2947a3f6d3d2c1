// Finding the smallest sufficient rule set. What is right is in specs/.
#![tactic(auto)]

ghost use Rattle.std.specs.Prelude.{◌≡◌, false, ◌&&◌, ◌+◌, ◌<◌, ◌≤◌, ltb, length, IfErr};
ghost use Rattle.model.specs.Limits.{narrow_names, words, most_tests, most_candidates};
ghost use Rattle.model.specs.Answer.{outcome};
ghost use Rattle.model.specs.Find.{chosen};
ghost use Rattle.model.specs.Rules.{Known};
ghost use Rattle.file_format.specs.Bytes.{narrow_rule_bytes, wide_rule_bytes};
ghost use Rattle.file_format.specs.Encode.{field_bytes, rule_field_bytes, rule_fields};
ghost use Rattle.file_format.specs.Held.{Placed};
ghost use Rattle.file_writing.specs.Writing.{Wrote};
ghost use Rattle.file_reader.specs.Limits.{longest_rule};
ghost use Rattle.rule_match.specs.Held.{rules_of};
ghost use Rattle.find_candidates.specs.Tests.{tests_in, too_long};
ghost use Rattle.find_choice.specs.Choice.{choice_code};
ghost use Rattle.find_call.specs.Finder.{found_length, long_below, found, over, find_leaves, found_coded, find_among, find_of};

use file_format::Extent;
use model::{Cause, Refusal, Rule};
use rule_match::Rules;

// The most bytes of a rule's field, and those that a buffer has to have.
const FIELD_LENGTH: usize = file_format::HEAD_LENGTH + file_format::WIDE_RULE_LENGTH;

const FOUND_LENGTH: usize = model::MOST_CANDIDATES * FIELD_LENGTH;

// Whether one of the first n tests has more main writes than finding takes.
fn too_long(tests: &[Extent; model::MOST_TESTS], n: usize) -> bool
    requires { n ≤ most_tests }
    ensures { result ≡ long_below tests.now n }
{
    for test in &tests[..n] {
        if model::MOST_FOUND < test.main {
            return true;
        }
    }
    false
}

// The choice among the candidates of a file, none of whose tests is too long.
fn choice(cands: Rules, file: &[u8], tests: [Extent; model::MOST_TESTS], n: usize) -> Option<u64>
    requires { (cands.count ≤ most_candidates) × (Placed file.now (tests_in file.now) tests n × (too_long (tests_in file.now) ≡ false)) }
    ensures { result ≡ choice_code (chosen (tests_in file.now) (rules_of cands)) }
{
    let mut table = [0u64; find_table::SET_WORDS];
    find_table::mark_all(&mut table, cands, file, tests, n);
    find_table::lower_all(&mut table, cands.count);
    find_choice::choose(&table, cands)
}

// Whether both names of a rule are of one byte.
fn is_narrow(rule: Rule) -> bool
    ensures { result ≡ ltb rule.first narrow_names && ltb rule.second narrow_names }
{
    rule.first < model::NARROW_NAMES && rule.second < model::NARROW_NAMES
}

// A rule's field at a place, with names of one byte; answers the next place.
fn put_narrow_rule(buffer: &mut [u8], at: usize, rule: Rule) -> usize
    requires { (at + longest_rule ≤ length buffer.old) × ((rule.predicate < 256) × ((rule.first < narrow_names) × (rule.second < narrow_names))) }
    ensures { Wrote buffer.old at (field_bytes 3 (narrow_rule_bytes rule)) buffer.new result }
{
    let length = file_format::NARROW_RULE_LENGTH_BYTE;
    let field = [
        3,
        0,
        length,
        rule.first as u8,
        rule.predicate as u8,
        rule.second as u8,
    ];
    file_writing::put_bytes(buffer, at, &field)
}

// .., with names of two. (The two differ in their layouts, which no parameter tells: each has its law.)
fn put_wide_rule(buffer: &mut [u8], at: usize, rule: Rule) -> usize
    requires { (at + longest_rule ≤ length buffer.old) × (rule.predicate < 256) }
    ensures { Wrote buffer.old at (field_bytes 10 (wide_rule_bytes rule)) buffer.new result }
{
    let a = file_writing::put_bytes(buffer, at, &[10, 0, file_format::WIDE_RULE_LENGTH_BYTE]);
    let b = file_writing::put_half(buffer, a, rule.first);
    let c = file_writing::put(buffer, b, rule.predicate as u8);
    file_writing::put_half(buffer, c, rule.second)
}

// .., with names of two bytes only where one exceeds 255.
fn put_rule(buffer: &mut [u8], at: usize, rule: Rule) -> usize
    requires { (at + longest_rule ≤ length buffer.old) × (rule.predicate < 256) }
    ensures { Wrote buffer.old at (rule_field_bytes rule) buffer.new result × (result ≤ at + longest_rule) }
{
    if is_narrow(rule) {
        return put_narrow_rule(buffer, at, rule);
    }
    put_wide_rule(buffer, at, rule)
}

// The rules' fields at the front of a buffer, one behind the other.
fn put_rules(buffer: &mut [u8], set: &[Rule])
    requires { (length set.now ≤ most_candidates) × (Known set.now × (found_length ≤ length buffer.old)) }
    ensures { buffer.new ≡ over (rule_fields set.now) buffer.old }
{
    let mut at: usize = 0;
    for rule in set {
        at = put_rule(buffer, at, *rule);
    }
}

// Finds rules for the tests of a file without rules, none of which is too long, and answers how many stand
// in the buffer.
fn find_among(
    file: &[u8],
    tests: [Extent; model::MOST_TESTS],
    n: usize,
    buffer: &mut [u8],
) -> Result<u64, Refusal>
    requires { (Placed file.now (tests_in file.now) tests n × (too_long (tests_in file.now) ≡ false)) × (found_length ≤ length buffer.old) }
    ensures leaves { found (outcome result) buffer.new ≡ find_among (tests_in file.now) buffer.old }
    ensures place { IfErr result (λ why. why.place < words) }
{
    let cands = find_candidates::collect(file, tests, n);
    if model::MOST_CANDIDATES < cands.count {
        return Err(Cause::TooManyCandidates.into());
    }
    match choice(cands, file, tests, n) {
        Some(best) => {
            let set = find_sets::pick(cands, best);
            put_rules(buffer, &set.items[..set.count]);
            Ok(set.count as u64)
        }
        None => Err(Cause::NoSetDoes.into()),
    }
}

// The same for a whole file.
fn find_in(file: &[u8], buffer: &mut [u8]) -> Result<u64, Refusal>
    ensures leaves { found (outcome result) buffer.new ≡ find_of file.now buffer.old }
    ensures place { IfErr result (λ why. why.place < words) }
{
    let contents = file_reader::read(file)?;
    if 0 < contents.rules {
        return Err(Cause::FileHasRules.into());
    }
    if too_long(&contents.tests, contents.count) {
        return Err(Cause::TestTooLong.into());
    }
    if buffer.len() < FOUND_LENGTH {
        return Err(Cause::BufferTooShort.into());
    }
    find_among(file, contents.tests, contents.count, buffer)
}

// Finds the smallest rule set under which all tests of a file hold, writes its rules as fields to
// the front of the buffer, and answers how many; or the refusal.
pub fn find(file: &[u8], buffer: &mut [u8]) -> u64
    ensures { find_leaves result buffer.new ≡ found_coded (find_of file.now buffer.old) }
{
    model::coded(find_in(file, buffer))
}
