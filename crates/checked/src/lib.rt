// What a call answers, and what a check has read of two packs: their counts and numbers, in the words that were lent to it.
#![tactic(auto)]

ghost use Rattle.std.specs.Prelude.{◌≡◌, ◌≤◌, ◌<◌, length};
ghost use Rattle.jobs.specs.Words.{count_at};
ghost use Rattle.checked.specs.Answers.{refused};

use numbers::zigzag::size_of;
use refusals::{Refusal, number_of, place_of};

// What a call answers: number, place, F and G.
#[derive(Clone, Copy)]
pub struct Answer {
    pub number: u64,
    pub place: u64,
    pub loss: u64,
    pub gap: u64,
}

// An answer that is no table's: done, or a refusal.
pub fn plain(number: u64, place: u64) -> Answer
    ensures { result ≡ record { number = number; place = place; loss = 0; gap = 0 } }
{
    Answer {
        number,
        place,
        loss: 0,
        gap: 0,
    }
}

// A refusal's number and place.
pub fn refused(r: Refusal) -> Answer
    ensures { result ≡ (refused r).answer }
{
    plain(number_of(r), place_of(r) as u64)
}

// The count that stands at `at`: a word of 32 bits at most, for which `jobs::words::count_at` asks too much.
pub fn count_at(words: &[i64], at: usize) -> u64
    requires { (at < length words.now) × (count_at words.now at ≤ 4294967295) }
    ensures { result ≡ count_at words.now at }
{
    size_of(words[at])
}
