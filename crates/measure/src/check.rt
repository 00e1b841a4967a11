// The check of a proposal (document 01, "Order"): the job pack's refusals, then 6, values in their boxes (7), links kept (8), and a gap of at
// most the tolerance (9), which names the gap's largest term.
ghost use Rattle.std.specs.Prelude.{◌≡◌};
ghost use Rattle.std.proofs.lemmas.List.Edits.{sets};
ghost use Rattle.jobs.specs.Packs.{read_job};
ghost use Rattle.jobs.specs.Words.{job_of};
ghost use Rattle.measure.specs.Check.{check_of, verdict_for};
ghost use Rattle.measure.specs.Opening.{proposal_words};
ghost use Rattle.measure.specs.Given.{Judging};
ghost use Rattle.measure.specs.Running.{Added};
ghost use Rattle.measure.specs.OnWords.{smooth_on, judged_on};

use crate::meeting::meet;
use crate::opening::open_both;
use crate::proposed::Proposal;
use crate::{gap, loss, smooth};
use jobs::job::JOB_WORDS;
use jobs::proposal::PROPOSAL_WORDS;
use jobs::words::ReadJob;
use refusals::Refusal;
use tally::{Tally, place_of};

// The loss and the gap of a table that is accepted.
#[derive(Clone, Copy)]
pub struct Figures {
    pub loss: i64,
    pub gap: i64,
}

// What the check answers.
pub type Verdict = Result<Figures, Refusal>;

// The verdict on a table that meets its boxes and links, from the tally of its link terms and its link parts, to which its differences add.
fn judged(p: Proposal, n: usize, links: Tally, parts: &mut [i64]) -> Verdict
    requires { Judging p.job.words.now p.words.now n links parts.old }
    ensures { (result ≡ judged_on p.entry.job.words.now p.entry.words.now) × Added (smooth_on p.entry.job.words.now p.entry.words.now) parts.old parts.new }
{
    let rough = smooth::smoothed(p, n, parts);
    let cells = gap::total_of(p, n, parts, links.total);
    let g = cells.total;
    let t = p.job.tolerance();
    if g <= t {
        let loss = loss::loss(p, rough);
        return Ok(Figures { loss, gap: g });
    }
    Err(Refusal::GapAbove(place_of(n, cells, links)))
}

// The verdict on a proposal for a job.
pub fn check_proposal(p: Proposal) -> Verdict
    ensures { result ≡ verdict_for (job_of p.entry.job.words.now) p.entry.words.now }
{
    let n = p.job.cells();
    let mut parts = [0i64; 120];
    let tally = meet(p, n, &mut parts)?;
    judged(p, n, tally, &mut parts)
}

// The check of a proposal pack against a job pack. The words of both go into what is lent, also those before a refusal: lend it room of your own.
pub fn check_into(
    job: &[u8],
    proposal: &[u8],
    words: &mut [i64; JOB_WORDS],
    values: &mut [i64; PROPOSAL_WORDS],
) -> Verdict
    ensures { (result ≡ check_of job.now proposal.now) × (words.new ≡ sets words.old 0 (read_job job.now).words) × (values.new ≡ sets values.old 0 (proposal_words job.now proposal.now)) }
{
    let counts = open_both(job, proposal, words, values)?;
    let read = ReadJob {
        words: &words[..counts.words],
    };
    check_proposal(Proposal {
        job: read,
        words: &values[..counts.values],
    })
}

// The same, with room of its own.
pub fn check(job: &[u8], proposal: &[u8]) -> Verdict
    ensures { result ≡ check_of job.now proposal.now }
{
    let mut words = [0i64; JOB_WORDS];
    let mut values = [0i64; PROPOSAL_WORDS];
    check_into(job, proposal, &mut words, &mut values)
}
