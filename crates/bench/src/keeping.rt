// The four calls on a shelf.
ghost use Rattle.shelf.specs.Calls.{own, keep, forget, clear};
ghost use Rattle.bench.specs.Calls.{ShelfSays, FetchSays};

use crate::answers::{ANSWER_WORDS, NO_ANSWER, give};

// Check a proposal pack against a job pack and, where it is accepted, keep its table for the society that the job pack names.
pub fn bench_keep(shelf: &mut [u32], job: &[u8], proposal: &[u8], answer: &mut [u64]) -> u64
    ensures { ShelfSays (own (keep job.now proposal.now)) shelf.old answer.old result answer.new shelf.new }
{
    if answer.len() != ANSWER_WORDS {
        return NO_ANSWER;
    }
    let a = shelf::keep(shelf, job, proposal);
    give(answer, a)
}

// Hand out the values that are kept under a job pack's number, where the check accepts them for that job.
pub fn bench_fetch(shelf: &[u32], job: &[u8], out: &mut [u32], answer: &mut [u64]) -> u64
    ensures { FetchSays shelf.now job.now out.old answer.old result answer.new out.new }
{
    if answer.len() != ANSWER_WORDS {
        return NO_ANSWER;
    }
    let a = shelf::fetch(shelf, job, out);
    give(answer, a)
}

// Forget the table that is kept for a society under a job's number.
pub fn bench_forget(shelf: &mut [u32], society: u32, job: u32, answer: &mut [u64]) -> u64
    ensures { ShelfSays (own (forget society job)) shelf.old answer.old result answer.new shelf.new }
{
    if answer.len() != ANSWER_WORDS {
        return NO_ANSWER;
    }
    let a = shelf::forget(shelf, society, job);
    give(answer, a)
}

// The row becomes the counts, and every word of their spans 0.
pub fn bench_clear(shelf: &mut [u32], counts: &[u32; 8], answer: &mut [u64]) -> u64
    ensures { ShelfSays (clear counts.now) shelf.old answer.old result answer.new shelf.new }
{
    if answer.len() != ANSWER_WORDS {
        return NO_ANSWER;
    }
    let a = shelf::clear(shelf, counts);
    give(answer, a)
}
