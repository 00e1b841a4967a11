// The terms of the gap handed out (document 02, W-202): three words a place, the cells' first and then the links': the term, the residual (0 for a
// link), and the side that supplied it (0 the box, 1 the weight, 2 a link).
#![tactic(auto)]

mod entries;
mod listing;

ghost use Rattle.std.specs.Prelude.{length};
ghost use Rattle.packs.specs.Reading.{Hands};
ghost use Rattle.terms.specs.Listing.{terms_of};

use crate::listing::list_table;
use jobs::job::JOB_WORDS;
use jobs::proposal::PROPOSAL_WORDS;
use jobs::words::ReadJob;
use measure::opening::open_both;
use measure::proposed::Proposal;
use refusals::Refusal;

// The terms of a proposal pack against a job pack: refused as the check refuses, but not with 9, and with 13 where there is no room. A refusal writes
// nothing.
pub fn list_terms(job: &[u8], proposal: &[u8], out: &mut [i64]) -> Result<usize, Refusal>
    ensures { Hands (terms_of (length out.old) job.now proposal.now) out.old result out.new }
{
    let mut words = [0i64; JOB_WORDS];
    let mut values = [0i64; PROPOSAL_WORDS];
    let counts = open_both(job, proposal, &mut words, &mut values)?;
    let read = ReadJob {
        words: &words[..counts.words],
    };
    list_table(
        Proposal {
            job: read,
            words: &values[..counts.values],
        },
        out,
    )
}
