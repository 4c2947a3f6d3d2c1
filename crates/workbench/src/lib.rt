// The tester's interface: numbers and byte slices. Every refusal is `refusal number place`.
#![tactic(auto)]

ghost use Rattle.std.specs.Prelude.{◌≡◌};
ghost use Rattle.model.specs.Answer.{coded};
ghost use Rattle.judge_cases.specs.Judge.{case_in};
ghost use Rattle.find_call.specs.Finder.{find_leaves, found_coded, find_of};
ghost use Rattle.log_trace.specs.Traced.{trace_out, trace_answer};
ghost use Rattle.workbench.specs.Printed.{printed, printed_of};
ghost use Rattle.judge_answers.specs.Judged.{judge_answer, verdict_answer};
ghost use Rattle.file_calls.specs.File.{read_answer, locate_answer, cyclic_answer};

use model::{Cause, Refusal};

// How many rules, and 256 times how many tests, a file holds.
pub fn pelzhondy_read(file: &[u8]) -> u64
    ensures { result ≡ coded (read_answer file.now) }
{
    file_calls::read_counts(file)
}

// Where test `test`, counted from 1, stands: the offset of its first field, and from bits 16, 24
// and 32 on how many initial writes, main writes and checks it has. 9: no such test.
pub fn pelzhondy_locate(file: &[u8], test: u64) -> u64
    ensures { result ≡ coded (locate_answer file.now test) }
{
    file_calls::locate_test(file, test)
}

// Whether the rules of a file are cyclic: 1, or 0.
pub fn pelzhondy_cyclic(file: &[u8]) -> u64
    ensures { result ≡ coded (cyclic_answer file.now) }
{
    file_calls::cyclic_rules(file)
}

// Judges test `test`, counted from 1: how many schedules are valid, from bit 21 on how many of these
// are bad, from bit 42 on the number of the smallest bad one, or 0 where none is: of those with the fewest
// flagged writes the smallest number. Refused by reading, 8, 9.
pub fn pelzhondy_judge(file: &[u8], test: u64) -> u64
    ensures { result ≡ judge_answer (case_in file.now test) }
{
    match judge_cases::judge(file, test) {
        Ok(j) => judge_answers::code_of(j),
        Err(why) => why.code(),
    }
}

// The verdict on test `test`, counted from 1: 0 if it holds, else one more than the number of the
// schedule that judge shows. Refused by reading, 8, 9.
pub fn pelzhondy_verdict(file: &[u8], test: u64) -> u64
    ensures { result ≡ verdict_answer (case_in file.now test) }
{
    match judge_cases::decide(file, test) {
        Ok(v) => judge_answers::code_of_verdict(v),
        Err(why) => why.code(),
    }
}

// What the judging program prints for a file, at the front of `out`, and how many bytes that is.
// 12: `out` has under 400 bytes.
pub fn pelzhondy_judge_lines(file: &[u8], out: &mut [u8]) -> u64
    ensures { printed result out.new ≡ printed_of file.now out.old }
{
    if out.len() < judge_text::TEXT_LENGTH {
        return Refusal::from(Cause::BufferTooShort).code();
    }
    judge_text::judge_lines(file, out) as u64
}

// The smallest rule set under which all tests of a file hold: its rules as fields at the front of
// `buffer`, and how many. Refused by reading, 10, 24, 12, 11, 13.
pub fn pelzhondy_find(file: &[u8], buffer: &mut [u8]) -> u64
    ensures { find_leaves result buffer.new ≡ found_coded (find_of file.now buffer.old) }
{
    find_call::find(file, buffer)
}

// The test of two programs of puts, 4 bytes each (key 2, value 2), with a range check at 0, at the
// front of `buffer`, and how many bytes that is. 19, 6, 20, 12.
pub fn pelzhondy_trace(initial: &[u8], main: &[u8], buffer: &mut [u8]) -> u64
    ensures { trace_out result buffer.new ≡ trace_answer initial.now main.now buffer.old }
{
    log_trace::trace(initial, main, buffer)
}
