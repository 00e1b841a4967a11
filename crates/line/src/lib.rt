// The line that the checking program prints for an input (document 01, "The checking program"). The program itself only reads and writes.
#![tactic(auto)]

ghost use Rattle.std.specs.Prelude.{◌≡◌, ◌≤◌, [], ◌∷◌, length};
ghost use Rattle.refusals.specs.Refusals.{number_of, place_of};
ghost use Rattle.checked.specs.Checked.{checked_of};
ghost use Rattle.checked.specs.Answers.{overwritten};
ghost use Rattle.line.specs.Line.{printed, checked_line, packs_line, line_of};
ghost use Rattle.decimals.specs.Puts.{Puts};

mod parted;
mod table;

use crate::parted::put_two;
use crate::table::put_table;
use jobs::job::JOB_WORDS;
use jobs::proposal::PROPOSAL_WORDS;
use measure::check::check_into;
use numbers::plain::{Number, number_at};
use refusals::Refusal;

// The most bytes that the program reads, and the place of a longer input.
const LIMIT: usize = 8192;

// The line of a refusal.
fn put_refusal(r: Refusal, out: &mut [u8]) -> usize
    requires { 1024 ≤ length out.old }
    ensures { Puts (printed (number_of r) (place_of r ∷ [])) out.old 0 result out.new }
{
    put_two(refusals::number_of(r), refusals::place_of(r) as u64, out)
}

// The line of the check of two packs.
fn put_check(job: &[u8], proposal: &[u8], out: &mut [u8]) -> usize
    requires { 1024 ≤ length out.old }
    ensures { Puts (checked_line (checked_of job.now proposal.now)) out.old 0 result out.new }
{
    let mut words = [0i64; JOB_WORDS];
    let mut rates = [0i64; PROPOSAL_WORDS];
    match check_into(job, proposal, &mut words, &mut rates) {
        Ok(figures) => put_table(&words, &rates, figures, out),
        Err(r) => put_refusal(r, out),
    }
}

// The line of an input whose job pack is `size.value` bytes long and starts at `size.next`.
fn put_packs(input: &[u8], size: Number, out: &mut [u8]) -> usize
    requires { (size.next ≤ length input.now) × (1024 ≤ length out.old) }
    ensures { Puts (packs_line input.now (Some size)) out.old 0 result out.new }
{
    let left = input.len() - size.next;
    if (left as u64) < size.value {
        return put_refusal(Refusal::Unreadable(0), out);
    }
    let end = size.next + (size.value as usize);
    put_check(&input[size.next..end], &input[end..], out)
}

// Puts the line of an input at the front of the output, and answers how many bytes it has.
pub fn line_of(input: &[u8], out: &mut [u8; 1024]) -> usize
    ensures count { result ≡ length (line_of input.now) }
    ensures output { out.new ≡ overwritten out.old (line_of input.now) }
{
    if LIMIT < input.len() {
        return put_refusal(Refusal::Unreadable(LIMIT), out);
    }
    match number_at(input, 0) {
        Some(size) => put_packs(input, size, out),
        None => put_refusal(Refusal::Unreadable(0), out),
    }
}
