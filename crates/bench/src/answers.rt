// What every call ends with: number, place, F and G in the lent answer, and one number returned that tells number and place.
ghost use Rattle.std.specs.Prelude.{◌≡◌, ◌%◌, ◌^◌, length};
ghost use Rattle.checked.specs.Answers.{answer_of};
ghost use Rattle.bench.specs.Answers.{code_of, answer_words};
ghost use Rattle.bench.specs.Calls.{outcome_of, offer_of};

use checked::{Answer, plain, refused};
use linked::Offer;
use measure::check::Verdict;
use numbers::zigzag::size_of;
use refusals::Refusal;
use std::num::wrapping_add_u64;

// The words of an answer.
pub const ANSWER_WORDS: usize = 4;

// What a call returns whose answer slice is not that long: 13, place 4. Each call tests that itself: what stands between the test and `give` lends other
// slices, and a closure of it would have to say all that the call says.
pub const NO_ANSWER: u64 = 141;

// A place counts 32 times in the number returned.
const PLACE_SHIFT: u64 = 5;

// Write the answer and return its number and place as one. No answer of a call is so large that this wraps, which is for the calls to show.
pub fn give(answer: &mut [u64], a: Answer) -> u64
    requires { length answer.old ≡ 4 }
    ensures { (result ≡ code_of a % 2 ^ 64) × (answer.new ≡ answer_words a) }
{
    answer[0] = a.number;
    answer[1] = a.place;
    answer[2] = a.loss;
    answer[3] = a.gap;
    let far = a.place << PLACE_SHIFT;
    wrapping_add_u64(far, a.number)
}

// The answer for a verdict of the check: an accepted table's loss and gap stand in it.
pub fn of_verdict(verdict: Verdict) -> Answer
    ensures { result ≡ answer_of verdict }
{
    verdict.map_or_else(
        refused,
        |figures| Answer {
            loss: size_of(figures.loss),
            gap: size_of(figures.gap),
            ..plain(0, 0)
        },
    )
}

// The answer for how reading or writing a pack ends.
pub fn of_outcome(outcome: Result<usize, Refusal>) -> Answer
    ensures { result ≡ outcome_of outcome }
{
    outcome.map_or_else(refused, |n| plain(0, n as u64))
}

// The answer for a proposal that honours links: the count of passes stands in F.
pub fn of_offer(offer: Result<Offer, Refusal>) -> Answer
    ensures { result ≡ offer_of offer }
{
    offer.map_or_else(
        refused,
        |made| Answer {
            loss: made.passes,
            ..plain(0, made.bytes as u64)
        },
    )
}
