// The answers of judge and verdict in one number each.
#![tactic(auto)]

ghost use Rattle.std.specs.Prelude.{◌≡◌, Ok};
ghost use Rattle.judge_cases.specs.Judge.{FewNumbers, FewDecided};
ghost use Rattle.judge_answers.specs.Judged.{judgement_code, verdict_code};

use judge_counting::Judgement;

// The bits of a count, and where the second and the third number of a judgement begin.
const COUNT_BITS: u32 = 21;

const FROM_BAD: u64 = 1 << COUNT_BITS;

const FROM_SHOWN: u64 = 1 << (COUNT_BITS + COUNT_BITS);

// The three numbers of a judgement: valid, bad from bit 21 on, shown from bit 42 on.
#[tactic(auto, unfolding(judge_cases::specs::Judge::FewNumbers, crate::specs::Judged::judgement_code))]
pub fn code_of(j: Judgement) -> u64
    requires { FewNumbers j }
    ensures { result ≡ judgement_code j }
{
    j.valid + FROM_BAD * j.bad + FROM_SHOWN * j.shown
}

// 0 where no schedule is bad, else one more than the smallest bad one's number.
#[tactic(auto, unfolding(judge_cases::specs::Judge::FewDecided, crate::specs::Judged::verdict_code))]
pub fn code_of_verdict(v: Option<u64>) -> u64
    requires { FewDecided (Ok v) }
    ensures { result ≡ verdict_code v }
{
    match v {
        None => 0,
        Some(s) => s + 1,
    }
}
