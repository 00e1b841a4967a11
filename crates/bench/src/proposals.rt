// A proposal checked, its terms handed out, and the house's own two made.
ghost use Rattle.bench.specs.Calls.{CheckSays, TermsSays, ProposeSays, ProposeLinkedSays};

use crate::answers::{ANSWER_WORDS, NO_ANSWER, give, of_offer, of_outcome, of_verdict};

// Check a proposal pack against a job pack.
pub fn bench_check(job: &[u8], proposal: &[u8], answer: &mut [u64]) -> u64
    ensures { CheckSays job.now proposal.now answer.old result answer.new }
{
    if answer.len() != ANSWER_WORDS {
        return NO_ANSWER;
    }
    let verdict = measure::check::check(job, proposal);
    give(answer, of_verdict(verdict))
}

// Hand out the terms of the gap of a proposal pack against a job pack, three words a place: term, residual and side.
pub fn bench_terms(job: &[u8], proposal: &[u8], out: &mut [i64], answer: &mut [u64]) -> u64
    ensures { TermsSays job.now proposal.now out.old answer.old result answer.new out.new }
{
    if answer.len() != ANSWER_WORDS {
        return NO_ANSWER;
    }
    let outcome = terms::list_terms(job, proposal, out);
    give(answer, of_outcome(outcome))
}

// Write the house proposal for a job pack to the output.
pub fn bench_propose(job: &[u8], out: &mut [u8], answer: &mut [u64]) -> u64
    ensures { ProposeSays job.now out.old answer.old result answer.new out.new }
{
    if answer.len() != ANSWER_WORDS {
        return NO_ANSWER;
    }
    let outcome = house::proposal::propose(job, out);
    give(answer, of_outcome(outcome))
}

// Write the house proposal that honours links to the output: that of the first pass, among so many, that the check accepts.
pub fn bench_propose_linked(job: &[u8], passes: u64, out: &mut [u8], answer: &mut [u64]) -> u64
    ensures { ProposeLinkedSays job.now passes out.old answer.old result answer.new out.new }
{
    if answer.len() != ANSWER_WORDS {
        return NO_ANSWER;
    }
    let offer = linked::propose_linked(job, passes, out);
    give(answer, of_offer(offer))
}
