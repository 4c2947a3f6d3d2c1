// The readers of a rule's, a write's and a check's field.
#![tactic(auto)]

ghost use Rattle.std.specs.Prelude.{◌≡◌, true, ◌≤◌, length};
ghost use Rattle.file_format.specs.Bytes.{byte};
ghost use Rattle.file_format.specs.Scan.{rule_field, write_field, check_field};
ghost use Rattle.file_format.specs.File.{is_rule, is_write, is_check, narrow_rule_length, wide_rule_length, narrow_write_length, wide_write_length, body_length, narrow_rule, wide_rule, rule_of, narrow_write, wide_write, write_of, check_of, field_end, pair_length};

use model::{Check, Rule, Write};

// The readers of a rule's body, with names of one byte and of two. (One over both would ask for each
// part's place by the width: no plainer, and a state's rules and writes are read by the wide ones alone.)
#[tactic(auto, unfolding(file_format::specs::File::narrow_rule))]
fn read_narrow_rule(body: &[u8]) -> Rule
    requires { length body.now ≡ narrow_rule_length }
    ensures { result ≡ narrow_rule body.now }
{
    Rule {
        first: u16::from(body[0]),
        predicate: u16::from(body[1]),
        second: u16::from(body[2]),
    }
}

#[tactic(auto, unfolding(file_format::specs::File::wide_rule))]
pub fn read_wide_rule(body: &[u8]) -> Rule
    requires { length body.now ≡ wide_rule_length }
    ensures { result ≡ wide_rule body.now }
{
    Rule {
        first: file_format::half_at(body, 0),
        predicate: u16::from(body[2]),
        second: file_format::half_at(body, 3),
    }
}

pub fn read_rule(tag: u8, body: &[u8]) -> Rule
    requires { (length body.now ≡ body_length tag) × (is_rule tag ≡ true) }
    ensures { result ≡ rule_of tag body.now }
{
    if file_format::is_wide(tag) {
        return read_wide_rule(body);
    }
    read_narrow_rule(body)
}

// Those of a write's.
#[tactic(auto, unfolding(file_format::specs::File::narrow_write))]
fn read_narrow_write(body: &[u8]) -> Write
    requires { length body.now ≡ narrow_write_length }
    ensures { result ≡ narrow_write body.now }
{
    Write {
        address: body[0],
        name: u16::from(body[1]),
        epoch: file_format::word_at(body, 2),
        block: file_format::word_at(body, 6),
    }
}

#[tactic(auto, unfolding(file_format::specs::File::wide_write))]
pub fn read_wide_write(body: &[u8]) -> Write
    requires { length body.now ≡ wide_write_length }
    ensures { result ≡ wide_write body.now }
{
    Write {
        address: body[0],
        name: file_format::half_at(body, 1),
        epoch: file_format::word_at(body, 3),
        block: file_format::word_at(body, 7),
    }
}

fn read_write(tag: u8, body: &[u8]) -> Write
    requires { (length body.now ≡ body_length tag) × (is_write tag ≡ true) }
    ensures { result ≡ write_of tag body.now }
{
    if file_format::is_wide(tag) {
        return read_wide_write(body);
    }
    read_narrow_write(body)
}

// Those of a check's. (By the tags 4, 5 and 6 themselves, which are the kinds: with kind_of an arm stands
// for the third and for no kind at all, and joins two proofs.)
#[tactic(auto, unfolding(file_format::specs::File::check_of))]
fn read_pair(body: &[u8]) -> Check
    requires { length body.now ≡ pair_length }
    ensures { result ≡ check_of 5 body.now }
{
    Check::Pair {
        a: body[0],
        v: file_format::word_at(body, 1),
        b: body[5],
        w: file_format::word_at(body, 6),
    }
}

fn read_check(tag: u8, body: &[u8]) -> Check
    requires { (length body.now ≡ body_length tag) × (is_check tag ≡ true) }
    ensures { result ≡ check_of tag body.now }
{
    match tag {
        4 => Check::Range(body[0]),
        5 => read_pair(body),
        _ => Check::Pointer(body[0]),
    }
}

// The rule, the write and the check whose field stands at `at`: each reader gets the field's body, a
// part of the file.
#[tactic(auto, unfolding(file_format::specs::Scan::rule_field))]
pub fn rule_at(s: &[u8], at: usize) -> Rule
    requires { (is_rule (byte s.now at) ≡ true) × (field_end s.now at ≤ length s.now) }
    ensures { result ≡ rule_field s.now at }
{
    read_rule(s[at], file_format::body_at(s, at))
}

#[tactic(auto, unfolding(file_format::specs::Scan::write_field))]
pub fn write_at(s: &[u8], at: usize) -> Write
    requires { (is_write (byte s.now at) ≡ true) × (field_end s.now at ≤ length s.now) }
    ensures { result ≡ write_field s.now at }
{
    read_write(s[at], file_format::body_at(s, at))
}

#[tactic(auto, unfolding(file_format::specs::Scan::check_field))]
pub fn check_at(s: &[u8], at: usize) -> Check
    requires { (is_check (byte s.now at) ≡ true) × (field_end s.now at ≤ length s.now) }
    ensures { result ≡ check_field s.now at }
{
    read_check(s[at], file_format::body_at(s, at))
}
