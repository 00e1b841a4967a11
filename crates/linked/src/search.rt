// Pass after pass from the house's values before rounding, up to the first whose proposal is accepted.
ghost use Rattle.std.specs.Prelude.{◌≡◌, suc, ◌≤◌, min, length};
ghost use Rattle.jobs.specs.Words.{columns_of, job_of};
ghost use Rattle.house.specs.Proposal.{solved_of};
ghost use Rattle.passes.specs.Hildreth.{after_pass};
ghost use Rattle.passes.specs.OnWords.{state};
ghost use Rattle.linked.specs.Proposal.{Ends, passes_before, on_first, on_ending};
ghost use Rattle.linked.specs.Given.{Factored, Starting};

use crate::Offer;
use crate::rounded::{accepts, write_after};
use factor::{CELLS, Factor, Thin, starts_of};
use house::band::right;
use house::factoring::{LINE_PLACES, solve_line_into};
use house::grid::{GRID_PLACES, Grid, solve_grid};
use jobs::words::ReadJob;
use passes::method::{LINKS, pass};
use refusals::Refusal;

// How many passes come before the first whose proposal is accepted, or the number given where none is, as `passes_before` answers. Values and
// multipliers stay as they are then.
fn search(
    job: ReadJob,
    factor: Factor,
    given: u64,
    v: &mut [f64; CELLS],
    y: &mut [f64; LINKS],
) -> u64
    requires { Starting job.words.now factor given v.old y.old }
    ensures { (result ≡ passes_before (job_of job.entry.words.now) given) × (state v.new y.new ≡ after_pass (job_of job.entry.words.now) (min (suc (passes_before (job_of job.entry.words.now) given)) given)) }
{
    for p in 0..given {
        pass(job, factor, v, y);
        if accepts(job, v, y) {
            return p;
        }
    }
    given
}

// The search from the house's values before rounding, and what it offers.
fn improve_from(
    job: ReadJob,
    factor: Factor,
    given: u64,
    v: &mut [f64; CELLS],
    out: &mut [u8],
) -> Result<Offer, Refusal>
    requires { Factored job.words.now factor × (v.old ≡ (solved_of (job_of job.words.now)).values) × (given ≤ 200) }
    ensures { Ends (on_first (length out.old) given (job_of job.entry.words.now) (passes_before (job_of job.entry.words.now) given)) out.old result out.new }
{
    let mut y = [0.0; LINKS];
    let before = search(job, factor, given, v, &mut y);
    if given <= before {
        return Err(Refusal::NotReached(given as usize));
    }
    let bytes = write_after(job, v, &y, out)?;
    Ok(Offer {
        bytes,
        passes: before + 1,
    })
}

// The offer by how the factoring ended.
fn on_ending(
    ending: Result<(), Thin>,
    job: ReadJob,
    factor: Factor,
    given: u64,
    v: &mut [f64; CELLS],
    out: &mut [u8],
) -> Result<Offer, Refusal>
    requires { (ending ≡ (solved_of (job_of job.words.now)).ending) × Factored job.words.now factor × (v.old ≡ (solved_of (job_of job.words.now)).values) × (given ≤ 200) }
    ensures { Ends (on_ending (length out.old) given (job_of job.entry.words.now) (solved_of (job_of job.entry.words.now)).ending) out.old result out.new }
{
    if let Err(thin) = ending {
        return Err(Refusal::TooThin(thin.cell));
    }
    improve_from(job, factor, given, v, out)
}

// The offer for a line, and for a grid, each with room for its own factor.
fn search_line(job: ReadJob, given: u64, out: &mut [u8]) -> Result<Offer, Refusal>
    requires { (columns_of job.words.now ≡ 1) × (given ≤ 200) }
    ensures { Ends (on_ending (length out.old) given (job_of job.entry.words.now) (solved_of (job_of job.entry.words.now)).ending) out.old result out.new }
{
    let n = job.cells();
    let z = job.order();
    let mut v = [0.0; CELLS];
    right(job, &mut v);
    let mut d = [0.0; CELLS];
    let mut l = [0.0; LINE_PLACES];
    let ending = solve_line_into(job, &mut v, &mut d, &mut l);
    let starts = starts_of(n, z);
    let factor = Factor {
        pivots: &d,
        multipliers: &l,
        starts: &starts,
        cells: n,
        reach: z,
    };
    on_ending(ending, job, factor, given, &mut v, out)
}

fn search_grid(grid: Grid, given: u64, out: &mut [u8]) -> Result<Offer, Refusal>
    requires { (columns_of grid.job.words.now ≡ 1 → ⊥) × (given ≤ 200) }
    ensures { Ends (on_ending (length out.old) given (job_of grid.entry.job.words.now) (solved_of (job_of grid.entry.job.words.now)).ending) out.old result out.new }
{
    let n = grid.job.cells();
    let starts = starts_of(n, grid.z);
    let mut d = [0.0; CELLS];
    let mut l = [0.0; GRID_PLACES];
    let mut v = [0.0; CELLS];
    right(grid.job, &mut v);
    let ending = solve_grid(grid, &starts, &mut d, &mut l, &mut v);
    let factor = Factor {
        pivots: &d,
        multipliers: &l,
        starts: &starts,
        cells: n,
        reach: grid.z,
    };
    on_ending(ending, grid.job, factor, given, &mut v, out)
}

// The same of a low order, and a grid of a small reach: with these, as at the house proposal, a line does not pay for a grid's room.
fn search_low_line(job: ReadJob, given: u64, out: &mut [u8]) -> Result<Offer, Refusal>
    requires { (columns_of job.words.now ≡ 1) × (given ≤ 200) }
    ensures { Ends (on_ending (length out.old) given (job_of job.entry.words.now) (solved_of (job_of job.entry.words.now)).ending) out.old result out.new }
{
    search_line(job, given, out)
}

fn search_small_grid(grid: Grid, given: u64, out: &mut [u8]) -> Result<Offer, Refusal>
    requires { (columns_of grid.job.words.now ≡ 1 → ⊥) × (given ≤ 200) }
    ensures { Ends (on_ending (length out.old) given (job_of grid.entry.job.words.now) (solved_of (job_of grid.entry.job.words.now)).ending) out.old result out.new }
{
    search_grid(grid, given, out)
}

// The offer by what the job is. A job that is no grid has one column.
pub fn search_shape(
    job: ReadJob,
    columns: usize,
    given: u64,
    out: &mut [u8],
) -> Result<Offer, Refusal>
    requires { (columns ≡ columns_of job.words.now) × (columns ≤ 12) × (given ≤ 200) }
    ensures { Ends (on_ending (length out.old) given (job_of job.entry.words.now) (solved_of (job_of job.entry.words.now)).ending) out.old result out.new }
{
    let order = job.order();
    if columns == 1 {
        if order <= 2 {
            return search_low_line(job, given, out);
        }
        return search_line(job, given, out);
    }
    let z = order * columns;
    let grid = Grid { job, z };
    if z <= 12 {
        return search_small_grid(grid, given, out);
    }
    search_grid(grid, given, out)
}
