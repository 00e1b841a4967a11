// Two packs read, before any rule of the check is tried (document 01, "Order"): the job pack, then the proposal pack for the counts that the job names.
ghost use Rattle.std.specs.Prelude.{◌≡◌};
ghost use Rattle.std.proofs.lemmas.List.Edits.{sets};
ghost use Rattle.packs.specs.Reading.{Hands};
ghost use Rattle.jobs.specs.Packs.{read_job, read_proposal};
ghost use Rattle.jobs.specs.Words.{cells_of, links_of};
ghost use Rattle.measure.specs.Opening.{proposal_words, opened_of};

use fields::Field;
use jobs::job::JOB_WORDS;
use jobs::proposal::{PROPOSAL_WORDS, read_proposal};
use jobs::words::ReadJob;
use refusals::Refusal;

// How many words two packs have that were read.
#[derive(Clone, Copy)]
pub struct Counts {
    pub words: usize,
    pub values: usize,
}

// Reads a proposal pack for a job.
fn read_for(job: ReadJob, proposal: &[u8], values: &mut [i64]) -> Result<usize, Refusal>
    ensures { Hands (read_proposal (cells_of job.entry.words.now) (links_of job.entry.words.now) proposal.now) values.old result values.new }
{
    read_proposal(proposal, job.cells() as u64, job.links() as u64, values)
}

// Reads both packs. The words of both go into what is lent, also those before a refusal: lend it room of your own.
pub fn open_both(
    job: &[u8],
    proposal: &[u8],
    words: &mut [i64; JOB_WORDS],
    values: &mut [i64; PROPOSAL_WORDS],
) -> Result<Counts, Refusal>
    ensures { (result ≡ opened_of job.now proposal.now) × (words.new ≡ sets words.old 0 (read_job job.now).words) × (values.new ≡ sets values.old 0 (proposal_words job.now proposal.now)) }
{
    let k = packs::reading::read(job, Field::Society, words)?;
    let read = ReadJob { words: &words[..k] };
    let m = read_for(read, proposal, values)?;
    Ok(Counts {
        words: k,
        values: m,
    })
}
