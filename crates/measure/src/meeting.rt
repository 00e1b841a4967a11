// Whether a table meets its job (document 01, "Order"): its boxes (7), then its links (8), which are walked over once for all that the gap needs of them.
ghost use Rattle.std.specs.Prelude.{◌≡◌};
ghost use Rattle.measure.specs.Given.{Walking};
ghost use Rattle.measure.specs.Running.{Added};
ghost use Rattle.measure.specs.OnWords.{parts_on, met_on, walked_on};

use crate::proposed::Proposal;
use crate::{boxes, links};
use refusals::Refusal;
use tally::Tally;

// The tally of the link terms of a table that meets its job, and its link parts; or the refusal of one that does not.
pub fn meet(p: Proposal, n: usize, parts: &mut [i64]) -> Result<Tally, Refusal>
    requires { Walking p.job.words.now p.words.now n parts.old }
    ensures { (result ≡ met_on p.entry.job.words.now p.entry.words.now) × Added (parts_on p.entry.job.words.now p.entry.words.now (walked_on p.entry.job.words.now p.entry.words.now)) parts.old parts.new }
{
    let cell = boxes::lowest_outside(p);
    if cell < n {
        return Err(Refusal::OutsideBox(cell));
    }
    links::walk(p, n, parts)
}
