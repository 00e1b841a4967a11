// The check of kept values and multipliers against a job (document 02, W-203), and what a fetch then answers.
ghost use Rattle.std.specs.Prelude.{◌≡◌, ◌++◌, map, ◌+◌, ◌≤◌, pos, length, drop, Ok};
ghost use Rattle.jobs.specs.Words.{cells_of, links_of, job_of};
ghost use Rattle.checked.specs.Answers.{overwritten};
ghost use Rattle.measure.specs.Check.{verdict_for};
ghost use Rattle.shelf.specs.Fetched.{lowest_above, proposal_of, kept_verdict, handed};
ghost use Rattle.shelf.specs.Given.{told, Judging};

use checked::Answer;
use fields::limits::{MULTIPLIER, RATE};
use jobs::proposal::PROPOSAL_WORDS;
use jobs::words::ReadJob;
use measure::check::{Figures, Verdict, check_proposal};
use measure::proposed::Proposal;
use numbers::zigzag::size_of;
use refusals::Refusal;
use slots::{HEAD, VALUES_END};

// Kept numbers of as many cells and links as a job has.
#[derive(Clone, Copy)]
pub struct Kept<'j, 'k> {
    pub job: ReadJob<'j>,
    pub values: &'k [u32],
    pub multipliers: &'k [u32],
    pub ghost cells: { length values.now ≡ cells_of job.words.now },
    pub ghost links: { length multipliers.now ≡ links_of job.words.now },
}

// The lowest of the numbers that is above `most`, or their count.
fn lowest_above(numbers: &[u32], most: u64) -> usize
    ensures { result ≡ lowest_above most numbers.now }
{
    numbers
        .iter()
        .position(|x| u64::from(*x) > most)
        .unwrap_or(numbers.len())
}

// The numbers over the front of a proposal's words.
fn copy_signed(words: &mut [i64], numbers: &[u32])
    requires { length numbers.now ≤ length words.old }
    ensures { words.new ≡ map pos numbers.now ++ drop (length numbers.now) words.old }
{
    for (i, number) in numbers.iter().enumerate() {
        words[i] = i64::from(*number);
    }
}

// The words of a proposal with those values and multipliers.
fn put_proposal(words: &mut [i64], values: &[u32], multipliers: &[u32])
    requires { length values.now + length multipliers.now ≤ length words.old }
    ensures { words.new ≡ proposal_of values.now multipliers.now ++ drop (length values.now + length multipliers.now) words.old }
{
    let n = values.len();
    copy_signed(words, values);
    copy_signed(&mut words[n..], multipliers);
}

impl<'j, 'k> Kept<'j, 'k> {
    // The check's verdict on kept numbers that are allowed.
    fn judge(self) -> Verdict
        requires { Judging self.values.now self.multipliers.now }
        ensures { result ≡ verdict_for (job_of self.entry.job.words.now) (proposal_of self.entry.values.now self.entry.multipliers.now) }
    {
        let mut proposal = [0i64; PROPOSAL_WORDS];
        put_proposal(&mut proposal, self.values, self.multipliers);
        let k = self.values.len() + self.multipliers.len();
        check_proposal(Proposal {
            job: self.job,
            words: &proposal[..k],
        })
    }

    // The verdict on kept numbers: 6 where one is not allowed, else the check's.
    fn verdict(self) -> Verdict
        ensures { result ≡ kept_verdict (job_of self.entry.job.words.now) self.entry.values.now self.entry.multipliers.now }
    {
        let cell = lowest_above(self.values, RATE);
        if cell < self.values.len() {
            return Err(Refusal::BadProposal(HEAD + cell));
        }
        let link = lowest_above(self.multipliers, MULTIPLIER);
        if link < self.multipliers.len() {
            return Err(Refusal::BadProposal(VALUES_END + link));
        }
        self.judge()
    }
}

// The values of an accepted table, to the output.
fn hand_out(values: &[u32], figures: Figures, out: &mut [u32]) -> Result<Answer, Refusal>
    ensures answer { told result ≡ (handed (length out.old) values.now (Ok figures)).answer }
    ensures output { out.new ≡ overwritten out.old (handed (length out.old) values.now (Ok figures)).values }
{
    let n = values.len();
    if out.len() < n {
        return Err(Refusal::NoRoom(n));
    }
    let loss = size_of(figures.loss);
    let gap = size_of(figures.gap);
    out[..n].copy_from_slice(values);
    Ok(Answer {
        number: 0,
        place: n as u64,
        loss,
        gap,
    })
}

// What a fetch answers to kept numbers.
pub fn fetch_kept(kept: Kept, out: &mut [u32]) -> Result<Answer, Refusal>
    ensures answer { told result ≡ (handed (length out.old) kept.entry.values.now (kept_verdict (job_of kept.entry.job.words.now) kept.entry.values.now kept.entry.multipliers.now)).answer }
    ensures output { out.new ≡ overwritten out.old (handed (length out.old) kept.entry.values.now (kept_verdict (job_of kept.entry.job.words.now) kept.entry.values.now kept.entry.multipliers.now)).values }
{
    let figures = kept.verdict()?;
    hand_out(kept.values, figures, out)
}
