// The judging program's lines.
#![tactic(auto)]

ghost use Rattle.std.specs.Prelude.{◌≡◌, cond, ◌+◌, ◌≤◌, eqb, length};
ghost use Rattle.model.specs.Limits.{most_rules, most_tests};
ghost use Rattle.model.specs.Answer.{number_of};
ghost use Rattle.model.specs.Test.{valid_count, bad_count};
ghost use Rattle.file_format.specs.Scan.{test_at};
ghost use Rattle.file_format.specs.Held.{Inside, AllInside};
ghost use Rattle.rule_match.specs.Held.{rules_of};
ghost use Rattle.file_writing.specs.Writing.{Wrote};
ghost use Rattle.judge_text.specs.Decimal.{decimal, Digits};
ghost use Rattle.judge_text.specs.Lines.{refused_line, test_line, case_lines, program_text, holds_text, fails_text, test_digits, count_digits, refusal_digits, place_digits, verdict_length, test_length, refused_length, text_length};

use file_format::Extent;
use judge_cases::Opened;
use model::Refusal;
use rule_match::Rules;

// The most digits of a test's number, of a count of schedules, of a refusal's number and of its place.
const TEST_DIGITS: usize = 2;

const COUNT_DIGITS: usize = 7;

const REFUSAL_DIGITS: usize = 2;

const PLACE_DIGITS: usize = 5;

// The bytes that any file's text has room in.
pub const TEXT_LENGTH: usize = 400;

// A number in decimal.
fn put_decimal(out: &mut [u8], at: usize, n: u64) -> usize
    requires { at + length (decimal n) ≤ length out.old }
    ensures { Wrote out.old at (decimal n) out.new result }
{
    if n < 10 {
        return file_writing::put(out, at, b'0' + n as u8);
    }
    let next = put_decimal(out, at, n / 10);
    file_writing::put(out, next, b'0' + (n % 10) as u8)
}

// A number of a line, which has so many digits at most; nothing is padded.
fn put_number<const DIGITS: usize>(out: &mut [u8], at: usize, n: u64) -> usize
    requires { Digits DIGITS n × (at + DIGITS ≤ length out.old) }
    ensures { Wrote out.old at (decimal n) out.new result × (result ≤ at + DIGITS) }
{
    put_decimal(out, at, n)
}

// `refused`, number, place.
fn put_refused(out: &mut [u8], at: usize, why: Refusal) -> usize
    requires { (at + refused_length ≤ length out.old) × (Digits refusal_digits (number_of why.cause) × Digits place_digits why.place) }
    ensures { Wrote out.old at (refused_line (number_of why.cause) why.place) out.new result × (result ≤ at + refused_length) }
{
    let at = file_writing::put_bytes(out, at, b"refused ");
    let at = put_number::<REFUSAL_DIGITS>(out, at, u64::from(why.cause.number()));
    let at = file_writing::put(out, at, b' ');
    let at = put_number::<PLACE_DIGITS>(out, at, why.place as u64);
    file_writing::put(out, at, b'\n')
}

fn put_verdict(out: &mut [u8], at: usize, bad: u64) -> usize
    requires { at + verdict_length ≤ length out.old }
    ensures { Wrote out.old at (cond (eqb bad 0) holds_text fails_text) out.new result × (result ≡ at + verdict_length) }
{
    if bad == 0 {
        return file_writing::put_bytes(out, at, b"holds");
    }
    file_writing::put_bytes(out, at, b"fails")
}

// Number, valid, bad, holds or fails.
fn put_line(out: &mut [u8], at: usize, k: u64, valid: u64, bad: u64) -> usize
    requires { (at + test_length ≤ length out.old) × (Digits test_digits k × (Digits count_digits valid × Digits count_digits bad)) }
    ensures { Wrote out.old at (test_line k valid bad) out.new result × (result ≤ at + test_length) }
{
    let at = put_number::<TEST_DIGITS>(out, at, k);
    let at = file_writing::put(out, at, b' ');
    let at = put_number::<COUNT_DIGITS>(out, at, valid);
    let at = file_writing::put(out, at, b' ');
    let at = put_number::<COUNT_DIGITS>(out, at, bad);
    let at = file_writing::put(out, at, b' ');
    let at = put_verdict(out, at, bad);
    file_writing::put(out, at, b'\n')
}

// The line of test k, which stands at an extent.
fn put_case(out: &mut [u8], at: usize, file: &[u8], rules: Rules, e: Extent, k: u64) -> usize
    requires { ((at + test_length ≤ length out.old) × Digits test_digits k) × Inside file.now e }
    ensures { Wrote out.old at (test_line k (valid_count (rules_of rules) (test_at file.now e)) (bad_count (rules_of rules) (test_at file.now e))) out.new result × (result ≤ at + test_length) }
{
    let j = judge_cases::judge_test(file, rules, e);
    put_line(out, at, k, j.valid, j.bad)
}

// The lines of a file's tests.
fn put_cases(out: &mut [u8], file: &[u8], opened: &Opened) -> usize
    requires { ((opened.now.count ≤ most_tests) × (text_length ≤ length out.old)) × AllInside file.now opened.now.tests opened.now.count }
    ensures { Wrote out.old 0 (case_lines (rules_of opened.now.rules) file.now opened.now.tests opened.now.count) out.new result × (result ≤ text_length) }
{
    let mut at: usize = 0;
    for (i, test) in opened.tests[..opened.count].iter().enumerate() {
        at = put_case(out, at, file, opened.rules, *test, i as u64 + 1);
    }
    at
}

// What the judging program prints for a file, at the front of `out`, and how many bytes that is.
pub fn judge_lines(file: &[u8], out: &mut [u8]) -> usize
    requires { text_length ≤ length out.old }
    ensures { Wrote out.old 0 (program_text file.now) out.new result × (result ≤ text_length) }
{
    match judge_cases::open_file(file) {
        Ok(opened) => put_cases(out, file, &opened),
        Err(why) => put_refused(out, 0, why),
    }
}
