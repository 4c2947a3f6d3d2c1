// Traces of puts: one whole test of the reading log, written into a lent buffer.
#![tactic(auto)]

ghost use Rattle.std.specs.Prelude.{◌≡◌, ◌/◌, ◌≤◌, length};
ghost use Rattle.model.specs.Limits.{most_initial_puts, most_main_puts};
ghost use Rattle.model.specs.Answer.{fault_number};
ghost use Rattle.file_format.specs.Bytes.{block_length};
ghost use Rattle.file_writing.specs.Writing.{Wrote};
ghost use Rattle.log_trace.specs.Traced.{empty_below, size_of, test_fields, trace_fault, trace_out, trace_answer};

use file_format::Kind;
use model::{Cause, Refusal};

// How many puts a program has.
fn puts_in(program: &[u8]) -> usize
    ensures { result ≡ length program.now / block_length }
{
    program.len() / file_format::BLOCK_LENGTH
}

// Whether one of a program's puts is (0, 0).
fn has_empty(program: &[u8]) -> bool
    ensures { result ≡ empty_below program.now (length program.now / block_length) }
{
    for i in 0..puts_in(program) {
        if file_format::word_at(program, file_format::BLOCK_LENGTH * i) == 0 {
            return true;
        }
    }
    false
}

// Whether trace can be called so, or why not.
fn trace_fault(initial: &[u8], main: &[u8], room: usize) -> Result<(), Cause>
    ensures { fault_number result ≡ trace_fault initial.now main.now room }
{
    if initial.len() % file_format::BLOCK_LENGTH != 0 {
        return Err(Cause::NotWholePuts);
    }
    if main.len() % file_format::BLOCK_LENGTH != 0 {
        return Err(Cause::NotWholePuts);
    }
    let n = puts_in(initial);
    let m = puts_in(main);
    if model::MOST_INITIAL_PUTS < n {
        return Err(Cause::OverLimit);
    }
    if model::MOST_MAIN_PUTS < m {
        return Err(Cause::OverLimit);
    }
    if has_empty(initial) {
        return Err(Cause::EmptyPut);
    }
    if has_empty(main) {
        return Err(Cause::EmptyPut);
    }
    if room < file_format::PUT_LENGTH * (n + m) + file_format::END_LENGTH {
        return Err(Cause::BufferTooShort);
    }
    Ok(())
}

// The test of two programs: main goes on where initial ended.
fn put_test(out: &mut [u8], initial: &[u8], main: &[u8]) -> usize
    requires { (length initial.now / block_length ≤ most_initial_puts) × ((length main.now / block_length ≤ most_main_puts) × (size_of (length initial.now / block_length) (length main.now / block_length) ≤ length out.old)) }
    ensures { Wrote out.old 0 (test_fields initial.now main.now (length initial.now / block_length) (length main.now / block_length)) out.new result × (result ≡ size_of (length initial.now / block_length) (length main.now / block_length)) }
{
    let n = puts_in(initial);
    let next = log_puts::put_program(out, 0, Kind::Initial as u8, initial, n, 1, 0);
    let end = log_puts::put_program(
        out,
        next,
        Kind::Main as u8,
        main,
        puts_in(main),
        1 + (n as u8),
        n as u32,
    );
    log_puts::put_end(out, end)
}

// The trace of a program of initial puts and one of main puts, a test with a range check at 0, into a
// buffer; answers its length. Each put is 4 bytes: key 2, value 2. 19: a program's length isn't a
// multiple of 4; 6: too many initial or main puts; 20: a put of (0, 0); 12: the buffer is too short.
pub fn trace(initial: &[u8], main: &[u8], buffer: &mut [u8]) -> u64
    ensures { trace_out result buffer.new ≡ trace_answer initial.now main.now buffer.old }
{
    if let Err(cause) = trace_fault(initial, main, buffer.len()) {
        return Refusal::from(cause).code();
    }
    put_test(buffer, initial, main) as u64
}
