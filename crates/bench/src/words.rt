// A job's words read from its pack, and its pack written from them.
ghost use Rattle.bench.specs.Calls.{ReadSays, WriteSays};

use crate::answers::{ANSWER_WORDS, NO_ANSWER, give, of_outcome};

// Hand out the words of a job pack, in pack order.
pub fn bench_read(job: &[u8], words: &mut [i64], answer: &mut [u64]) -> u64
    ensures { ReadSays job.now words.old answer.old result answer.new words.new }
{
    if answer.len() != ANSWER_WORDS {
        return NO_ANSWER;
    }
    let outcome = jobs::job::read_job(job, words);
    give(answer, of_outcome(outcome))
}

// Write the pack of a job's words to the output.
pub fn bench_write(words: &[i64], out: &mut [u8], answer: &mut [u64]) -> u64
    ensures { WriteSays words.now out.old answer.old result answer.new out.new }
{
    if answer.len() != ANSWER_WORDS {
        return NO_ANSWER;
    }
    let outcome = jobs::job::write_job(words, out);
    give(answer, of_outcome(outcome))
}
