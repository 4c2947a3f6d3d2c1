// What is wrong with a field: unknown tags, order, limits, lengths, predicates.
#![tactic(auto)]

ghost use Rattle.std.specs.Prelude.{◌≡◌, ◌<◌, length, IfOk};
ghost use Rattle.model.specs.Answer.{fault_number};
ghost use Rattle.file_format.specs.Bytes.{byte};
ghost use Rattle.file_format.specs.File.{kind_of, kind_number, body_length, out_of_order, over_limit, over_test, rule_fault, body_fault, fault_of};

use file_format::{Counts, Kind};
use model::{Cause, Rule};

#[tactic(auto, unfolding(file_format::specs::File::out_of_order))]
fn out_of_order(kind: Kind, c: Counts) -> bool
    ensures { result ≡ out_of_order (kind_number kind) c }
{
    match kind {
        Kind::Rule => c.begun || 0 < c.tests,
        Kind::Initial => 0 < c.main || 0 < c.checks,
        Kind::Main => 0 < c.checks,
        _ => false,
    }
}

#[tactic(auto, unfolding(file_format::specs::File::over_test, file_format::specs::File::is_check))]
fn over_test(kind: Kind, c: Counts) -> bool
    ensures { result ≡ over_test (kind_number kind) c }
{
    match kind {
        Kind::Initial => model::MOST_INITIAL <= c.initial,
        Kind::Main => model::MOST_MAIN <= c.main,
        Kind::Range | Kind::Pair | Kind::Pointer => model::MOST_CHECKS <= c.checks,
        Kind::Rule | Kind::End => false,
    }
}

#[tactic(auto, unfolding(file_format::specs::File::over_limit))]
fn over_limit(kind: Kind, c: Counts) -> bool
    ensures { result ≡ over_limit (kind_number kind) c }
{
    if kind == Kind::Rule {
        return model::MOST_RULES <= c.rules;
    }
    if c.begun {
        return over_test(kind, c);
    }
    model::MOST_TESTS <= c.tests
}

// The refusal of an unknown predicate.
#[tactic(auto, unfolding(file_format::specs::File::rule_fault))]
fn rule_fault(rule: Rule) -> Result<(), Cause>
    ensures { fault_number result ≡ rule_fault rule }
{
    if 2 < rule.predicate {
        return Err(Cause::UnknownPredicate);
    }
    Ok(())
}

#[tactic(auto, unfolding(file_format::specs::File::body_fault, file_format::specs::File::is_rule))]
fn body_fault(kind: Kind, tag: u8, body: &[u8]) -> Result<(), Cause>
    requires { (kind_number kind ≡ kind_of tag) × (length body.now ≡ body_length tag) }
    ensures { fault_number result ≡ body_fault tag body.now }
{
    if kind == Kind::Rule {
        return rule_fault(file_fields::read_rule(tag, body));
    }
    Ok(())
}

// The kind of the field at `at`, or the refusal that it meets.
pub fn fault(s: &[u8], at: usize, c: Counts) -> Result<Kind, Cause>
    requires { at < length s.now }
    ensures refused { fault_number result ≡ fault_of s.now at c }
    ensures kind { IfOk result (λ kind. kind_number kind ≡ kind_of (byte s.now at)) }
{
    let left = s.len() - at;
    if left < file_format::HEAD_LENGTH {
        return Err(Cause::Cut);
    }
    let tag = s[at];
    let Some(kind) = Kind::of(tag) else {
        return Err(Cause::UnknownTag);
    };
    if out_of_order(kind, c) {
        return Err(Cause::OutOfOrder);
    }
    if over_limit(kind, c) {
        return Err(Cause::OverLimit);
    }
    let n = file_format::body_length(tag);
    if usize::from(file_format::half_at(s, at + 1)) != n {
        return Err(Cause::WrongLength);
    }
    if left - file_format::HEAD_LENGTH < n {
        return Err(Cause::Cut);
    }
    body_fault(kind, tag, file_format::body_at(s, at))?;
    Ok(kind)
}
