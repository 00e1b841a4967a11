// A claims list made into a job pack without links (document 02, W-201): the list gives the cells, the caller all else.
#![tactic(auto)]

ghost use Rattle.std.specs.Prelude.{◌≤◌, ◌<◌, length, take};
ghost use Rattle.packs.specs.Writing.{roomed, Leaves};
ghost use Rattle.jobs.specs.Packs.{write_job};
ghost use Rattle.imports.specs.Imports.{words_of, import_of};

mod rates;
mod words;

use crate::words::put_job;
use lists::lines::MOST_LINES;
use lists::reading::read_list;
use refusals::Refusal;

// What the caller gives beside the list.
#[derive(Clone, Copy)]
pub struct Given {
    pub divisor: u64,
    pub society: u64,
    pub job: u64,
    pub order: u64,
    pub constant: u64,
    pub tolerance: u64,
    pub floor: u64,
    pub ceiling: u64,
}

// The words of a job of 120 cells without links.
const IMPORT_WORDS: usize = 487;

// Writes the pack of the job of the first n cells.
fn write_import(
    g: Given,
    n: usize,
    exposures: &[u32],
    deaths: &[u32],
    out: &mut [u8],
) -> Result<usize, Refusal>
    requires { (0 < g.divisor) × ((n ≤ 120) × ((n ≤ length exposures.now) × (n ≤ length deaths.now))) }
    ensures { Leaves (roomed (length out.old) (write_job (words_of g (take n exposures.now) (take n deaths.now)))) out.old result out.new }
{
    let mut words = [0i64; IMPORT_WORDS];
    let count = put_job(g, n, exposures, deaths, &mut words);
    jobs::job::write_job(&words[..count], out)
}

// Writes the job pack that a claims list makes, or refuses and writes nothing.
pub fn import(text: &[u8], g: Given, out: &mut [u8]) -> Result<usize, Refusal>
    ensures { Leaves (import_of g (length out.old) text.now) out.old result out.new }
{
    if g.divisor == 0 {
        return Err(Refusal::NoDivisor);
    }
    let mut exposures = [0u32; MOST_LINES];
    let mut deaths = [0u32; MOST_LINES];
    let n = read_list(text, true, &mut exposures, &mut deaths)?;
    write_import(g, n, &exposures, &deaths, out)
}
