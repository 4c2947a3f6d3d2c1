// Judging a test under a file's rules, over all its crash schedules. A file is read, its rules are loaded
// and asked for rings once, whatever is judged then.
#![tactic(auto)]

ghost use Rattle.std.specs.Prelude.{◌≡◌, ◌≤◌};
ghost use Rattle.model.specs.Limits.{most_rules};
ghost use Rattle.model.specs.Answer.{outcome};
ghost use Rattle.rule_match.specs.Held.{rules_of};
ghost use Rattle.file_format.specs.Held.{Inside};
ghost use Rattle.judge_cases.specs.Judge.{case_at, case_in, judgement_of, verdict_of, FewNumbers, OpensFile, Selects, judged_of, decided_of, Few, FewDecided};

use file_format::{Contents, Extent};
use judge_counting::Judgement;
use model::{Cause, Refusal};
use rule_match::Rules;

// A file opened for judging: its rules, how many tests it has, and where these stand, the first ones of
// an array.
#[derive(Clone, Copy)]
pub struct Opened {
    pub rules: Rules,
    pub count: usize,
    pub tests: [Extent; model::MOST_TESTS],
}

// Where the test stands that a call asks for, and its file's rules.
#[derive(Clone, Copy)]
pub struct Selected {
    pub rules: Rules,
    pub test: Extent,
}

// All of a test's schedules counted, under these rules. (This and `decide_test` load a test alike, each for itself:
// a function that loads one for both, and gives it as a struct, copies 3 KB and took 110 to 200 ns more of some
// 450 to 750.)
pub fn judge_test(file: &[u8], rules: Rules, e: Extent) -> Judgement
    requires { Inside file.now e }
    ensures { (result ≡ judgement_of (case_at (rules_of rules) file.now e)) × FewNumbers result }
{
    let test = judge_loading::load_test(file, e);
    let checks = judge_loading::load_checks(file, e);
    let mut rows = [0u64; 64];
    judge_rows::fill(&mut rows, rules, &test.labels, test.main);
    judge_counting::count_all(
        &rows,
        test.base,
        &test.stores,
        test.main,
        checks,
        test.checks,
    )
}

// The verdict on a test, under these rules: the smallest bad schedule, if there is one.
fn decide_test(file: &[u8], rules: Rules, e: Extent) -> Option<u64>
    requires { Inside file.now e }
    ensures { result ≡ verdict_of (case_at (rules_of rules) file.now e) }
{
    let test = judge_loading::load_test(file, e);
    let checks = judge_loading::load_checks(file, e);
    let mut rows = [0u64; 64];
    judge_rows::fill(&mut rows, rules, &test.labels, test.main);
    judge_search::smallest_bad(
        &mut rows,
        &test.base,
        &test.stores,
        test.main,
        checks,
        test.checks,
    )
}

// A file opened for judging, or the refusal: reading's, or that its rules are cyclic.
pub fn open_file(file: &[u8]) -> Result<Opened, Refusal>
    ensures { OpensFile file.now result }
{
    let Contents {
        rules,
        count,
        tests,
    } = file_reader::read(file)?;
    let rules = file_loading::file_rules(file, rules);
    if rule_cycles::is_cyclic(rules) {
        return Err(Refusal::from(Cause::CyclicRules));
    }
    Ok(Opened {
        rules,
        count,
        tests,
    })
}

// The test to be judged, or the refusal: that of opening, or that there is no such test.
fn select(file: &[u8], test: u64) -> Result<Selected, Refusal>
    ensures { Selects file.now test result }
{
    let opened = open_file(file)?;
    if !file_reader::has_test(opened.count, test) {
        return Err(Refusal::from(Cause::NoSuchTest));
    }
    Ok(Selected {
        rules: opened.rules,
        test: opened.tests[file_reader::from_zero(test)],
    })
}

// Judges test `test`, counted from 1.
pub fn judge(file: &[u8], test: u64) -> Result<Judgement, Refusal>
    ensures { (outcome result ≡ judged_of (case_in file.now test)) × Few result }
{
    let selected = select(file, test)?;
    Ok(judge_test(file, selected.rules, selected.test))
}

// The verdict on test `test`, counted from 1.
pub fn decide(file: &[u8], test: u64) -> Result<Option<u64>, Refusal>
    ensures { (outcome result ≡ decided_of (case_in file.now test)) × FewDecided result }
{
    let selected = select(file, test)?;
    Ok(decide_test(file, selected.rules, selected.test))
}
