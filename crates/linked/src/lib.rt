// The house proposal that honours links (document 02, W-207): pass after pass the rounded proposal is checked, up to the first that is accepted.
#![tactic(auto)]

ghost use Rattle.std.specs.Prelude.{◌≤◌, length};
ghost use Rattle.jobs.specs.Words.{job_of};
ghost use Rattle.linked.specs.Proposal.{Ends, linked_for, linked_of};

use crate::search::search_shape;
use fields::Field;
use house::proposal::COLUMNS;
use jobs::job::JOB_WORDS;
use jobs::words::ReadJob;
use refusals::Refusal;

pub mod rounded;
pub mod search;

// The most passes that may be asked for.
const PASSES: u64 = 200;

// A proposal that is accepted: how many bytes it has, and after how many passes it was made.
#[derive(Clone, Copy)]
pub struct Offer {
    pub bytes: usize,
    pub passes: u64,
}

// The proposal for a job that was read.
fn propose_for(job: ReadJob, given: u64, out: &mut [u8]) -> Result<Offer, Refusal>
    requires { given ≤ 200 }
    ensures { Ends (linked_for (length out.old) given (job_of job.entry.words.now)) out.old result out.new }
{
    let columns = job.columns();
    if COLUMNS < columns {
        return Err(Refusal::NotProposed);
    }
    search_shape(job, columns, given, out)
}

// The house proposal that honours links, for a job pack and at most so many passes. A refusal writes nothing; room is tested last.
pub fn propose_linked(job: &[u8], passes: u64, out: &mut [u8]) -> Result<Offer, Refusal>
    ensures { Ends (linked_of (length out.old) passes job.now) out.old result out.new }
{
    if !(1..=PASSES).contains(&passes) {
        return Err(Refusal::PassesNotAllowed);
    }
    let mut words = [0i64; JOB_WORDS];
    let k = packs::reading::read(job, Field::Society, &mut words)?;
    let job = ReadJob {
        words: &words[0..k],
    };
    propose_for(job, passes, out)
}
