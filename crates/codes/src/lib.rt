#![tactic(auto)]

// How an answer is one signed number for a C caller.
ghost use Rattle.std.specs.Prelude.{◌≡◌, ◌<◌, ◌^◌, IfOk, neg_ℤ, pos};
ghost use Rattle.refusal.specs.Rules.{refused};
ghost use Rattle.refusal.specs.Refusals.{number_of, told};
ghost use Rattle.encoder.specs.Calls.{refuses_14, told_encode};
ghost use Rattle.oneshot.specs.Parts.{Small};
ghost use Rattle.codes.specs.Codes.{coded, coded_encode};

use encoder::EncodeRefusal;
use refusal::Refusal;

// Minus a number.
fn negated(n: usize) -> i64
    requires { n < 2 ^ 63 }
    ensures { result ≡ neg_ℤ (pos n) }
{
    0 - (n as i64)
}

// Minus the number of a refusal.
pub fn minus(refusal: Refusal) -> i64
    ensures { result ≡ coded (refused (number_of refusal)) }
{
    negated(u8::from(refusal) as usize)
}

// A count, or minus the number of the refusal.
pub fn told(answer: Result<usize, Refusal>) -> i64
    requires { IfOk answer (λ n. n < 2 ^ 63) }
    ensures { result ≡ coded (told answer) }
{
    match answer {
        Ok(n) => n as i64,
        Err(why) => minus(why),
    }
}

// Refusal 14, with the bytes that stand in the output and the channel.
fn wide(bytes: usize, channel: u8) -> i64
    requires { bytes < 2 ^ 40 }
    ensures { result ≡ coded_encode (refuses_14 bytes channel) }
{
    negated(14 + 256 * (channel as usize) + 65536 * bytes)
}

// What an encoding call answers.
pub fn encoded(answer: Result<usize, EncodeRefusal>) -> i64
    requires { Small (told_encode answer) }
    ensures { result ≡ coded_encode (told_encode answer) }
{
    match answer {
        Ok(n) => told(Ok(n)),
        Err(EncodeRefusal::Refused(why)) => told(Err(why)),
        Err(EncodeRefusal::WeightRange { count, channel }) => wide(count, channel),
    }
}
