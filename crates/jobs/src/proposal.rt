// The proposal pack.
ghost use Rattle.std.specs.Prelude.{◌≡◌};
ghost use Rattle.packs.specs.Reading.{Hands};
ghost use Rattle.jobs.specs.Packs.{as_six, read_proposal};

use fields::proposal::values_from;
use refusals::{Refusal, place_of};

// A proposal has at most so many words: a value a cell and a multiplier a link.
pub const PROPOSAL_WORDS: usize = 280;

// Every refusal of the pack's numbers is 6 in a proposal.
fn as_six(read: Result<usize, Refusal>) -> Result<usize, Refusal>
    ensures { result ≡ as_six read }
{
    read.map_err(|r| Refusal::BadProposal(place_of(r)))
}

// Reads a proposal pack for so many cells and links: the values, then the multipliers. Words before a refusal are stored too: lend it room of your
// own.
pub fn read_proposal(
    pack: &[u8],
    cells: u64,
    links: u64,
    words: &mut [i64],
) -> Result<usize, Refusal>
    ensures { Hands (read_proposal cells links pack.now) words.old result words.new }
{
    let first = values_from(cells, links);
    as_six(packs::reading::read(pack, first, words))
}
