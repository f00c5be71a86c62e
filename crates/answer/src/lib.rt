// What a fee or the curve called alone answers: an amount, or a refusal.
#![tactic(auto)]

ghost use Rattle.std.specs.Prelude.{◌≡◌};
ghost use Rattle.answer.specs.Answer.{answer_of};

use math::ratio::NoQuotient;
use refusal::Refusal;

pub type Answer = Result<u64, Refusal>;

// A quotient as an answer: `none` refuses where there is no divisor, `past` where the result is past u64.
pub fn from_quotient<E: Copy>(quotient: Result<u64, NoQuotient>, none: E, past: E) -> Result<u64, E>
    ensures { result ≡ answer_of none past quotient }
{
    quotient.map_err(|why| match why {
        NoQuotient::Past => past,
        NoQuotient::NoDivisor => none,
    })
}
