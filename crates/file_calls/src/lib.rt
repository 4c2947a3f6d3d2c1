// Questions about a file as a whole: how much it holds, where a test stands, whether its rules are
// cyclic. Each answers as C is given it, in one number; every refusal is `refusal number place`.
#![tactic(auto)]

ghost use Rattle.std.specs.Prelude.{◌≡◌};
ghost use Rattle.model.specs.Answer.{coded};
ghost use Rattle.file_calls.specs.File.{read_answer, packed_extent, locate_answer, cyclic_answer, Packed};

use file_format::Extent;
use model::{Cause, Refusal};

// How many rules, and 256 times how many tests, a file holds.
pub fn read_counts(file: &[u8]) -> u64
    ensures { result ≡ coded (read_answer file.now) }
{
    match file_reader::read(file) {
        Ok(contents) => contents.rules as u64 + 256 * (contents.count as u64),
        Err(why) => why.code(),
    }
}

fn pack(e: Extent) -> u64
    requires { Packed e }
    ensures { result ≡ packed_extent e }
{
    let at = e.at as u64;
    let initial = e.initial as u64;
    let main = e.main as u64;
    let checks = e.checks as u64;
    at + 65536 * initial + 16777216 * main + 4294967296 * checks
}

// Where test `test`, counted from 1, stands: the offset of its first field, and from bits 16, 24
// and 32 on how many initial writes, main writes and checks it has. 9: no such test.
pub fn locate_test(file: &[u8], test: u64) -> u64
    ensures { result ≡ coded (locate_answer file.now test) }
{
    match file_reader::read(file) {
        Ok(contents) => {
            if !file_reader::has_test(contents.count, test) {
                return Refusal::from(Cause::NoSuchTest).code();
            }
            pack(contents.tests[file_reader::from_zero(test)])
        }
        Err(why) => why.code(),
    }
}

// Whether the rules of a file are cyclic: 1, or 0.
pub fn cyclic_rules(file: &[u8]) -> u64
    ensures { result ≡ coded (cyclic_answer file.now) }
{
    match file_reader::read(file) {
        Ok(contents) => {
            let rules = file_loading::file_rules(file, contents.rules);
            u64::from(rule_cycles::is_cyclic(rules))
        }
        Err(why) => why.code(),
    }
}
