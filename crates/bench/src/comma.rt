// Comma lists (document 02, W-201): a claims list made into a job pack, a table that goes out as a list, and such a list read back.
ghost use Rattle.bench.specs.Calls.{given_of, ImportSays, ExportSays, RatesSays};

use crate::answers::{ANSWER_WORDS, NO_ANSWER, give, of_outcome};
use imports::Given;

// Write the job pack of a claims list to the output.
pub fn bench_import(
    text: &[u8],
    divisor: u64,
    society: u64,
    job: u64,
    order: u64,
    constant: u64,
    tolerance: u64,
    floor: u64,
    ceiling: u64,
    out: &mut [u8],
    answer: &mut [u64],
) -> u64
    ensures { ImportSays (given_of divisor society job order constant tolerance floor ceiling) text.now out.old answer.old result answer.new out.new }
{
    if answer.len() != ANSWER_WORDS {
        return NO_ANSWER;
    }
    let g = Given {
        divisor,
        society,
        job,
        order,
        constant,
        tolerance,
        floor,
        ceiling,
    };
    let outcome = imports::import(text, g, out);
    give(answer, of_outcome(outcome))
}

// Write a table to the output as a list, from a first age on.
pub fn bench_export(rates: &[u32], first: u64, out: &mut [u8], answer: &mut [u64]) -> u64
    ensures { ExportSays rates.now first out.old answer.old result answer.new out.new }
{
    if answer.len() != ANSWER_WORDS {
        return NO_ANSWER;
    }
    let outcome = exports::text::export(rates, first, out);
    give(answer, of_outcome(outcome))
}

// Hand out the values of an export.
pub fn bench_rates(text: &[u8], out: &mut [u32], answer: &mut [u64]) -> u64
    ensures { RatesSays text.now out.old answer.old result answer.new out.new }
{
    if answer.len() != ANSWER_WORDS {
        return NO_ANSWER;
    }
    let outcome = exports::back::rates(text, out);
    give(answer, of_outcome(outcome))
}
