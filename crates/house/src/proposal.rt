// The house proposal for a job: solved, rounded out, and written as a proposal pack with every multiplier 0.
ghost use Rattle.std.specs.Prelude.{◌≡◌, ◌<◌, ◌≤◌, length, replicate, ◌≢◌, slice_index_or};
ghost use Rattle.std.specs.Float.{nan};
ghost use Rattle.packs.specs.Writing.{Leaves};
ghost use Rattle.jobs.specs.Words.{job_of, cells_of, columns_of};
ghost use Rattle.house.specs.Filled.{filled};
ghost use Rattle.house.specs.Band.{zero64};
ghost use Rattle.house.specs.Proposal.{solved_of, value_of, written_of, on_ending, proposed_of, propose_of};

use crate::band::right;
use crate::factoring::solve_line;
use crate::grid::{GRID_PLACES, Grid, solve_grid};
use crate::rounding::round_out;
use factor::{CELLS, Thin, starts_of};
use fields::Field;
use jobs::job::JOB_WORDS;
use jobs::words::{ReadJob, natural};
use refusals::Refusal;

// The most columns of a grid that is proposed for.
pub const COLUMNS: usize = 12;

// v rounded out into the box of the cell i.
fn value_at(job: ReadJob, i: usize, v: f64) -> i64
    requires { i < cells_of job.words.now }
    ensures { result ≡ value_of (job_of job.entry.words.now) i v }
{
    let lo = natural(job.floor(i));
    let hi = natural(job.ceiling(i));
    round_out(v, lo, hi) as i64
}

// The values of a proposal, rounded out, into the first words of a list.
pub fn values_into(job: ReadJob, v: &[f64; CELLS], made: &mut [i64])
    requires { cells_of job.words.now ≤ length made.old }
    ensures { made.new ≡ filled (λ i. value_of (job_of job.entry.words.now) i (slice_index_or v.now i nan)) (cells_of job.entry.words.now) 0 made.old }
{
    let n = job.cells();
    for i in 0..n {
        let x = v[i];
        made[i] = value_at(job, i, x);
    }
}

// The multipliers are zeros after the values, which take no words of their own.
fn write_values(job: ReadJob, v: &[f64; CELLS], out: &mut [u8]) -> Result<usize, Refusal>
    ensures { Leaves (written_of (length out.old) (job_of job.entry.words.now) v.now) out.old result out.new }
{
    let n = job.cells();
    let links = job.links();
    let mut values = [0i64; CELLS];
    values_into(job, v, &mut values);
    packs::writing::put_padded(&values[0..n], links, out)
}

// What is written by how the factoring ended.
fn on_ending(
    ending: Result<(), Thin>,
    job: ReadJob,
    v: &[f64; CELLS],
    out: &mut [u8],
) -> Result<usize, Refusal>
    ensures { Leaves (on_ending (length out.old) (job_of job.entry.words.now) v.now ending) out.old result out.new }
{
    if let Err(thin) = ending {
        return Err(Refusal::TooThin(thin.cell));
    }
    write_values(job, v, out)
}

// The proposal for a line, made in a list of zeros; its factor is not kept.
fn propose_line(job: ReadJob, v: &mut [f64; CELLS], out: &mut [u8]) -> Result<usize, Refusal>
    requires { (columns_of job.words.now ≡ 1) × (v.old ≡ replicate 120 zero64) }
    ensures { Leaves (on_ending (length out.old) (job_of job.entry.words.now) (solved_of (job_of job.entry.words.now)).values (solved_of (job_of job.entry.words.now)).ending) out.old result out.new }
{
    right(job, v);
    let mut none = [0.0; 1];
    let mut neither = [0.0; 1];
    let ending = solve_line(job, v, &mut none[0..0], &mut neither[0..0]);
    on_ending(ending, job, v, out)
}

// The proposal for a grid, made in a list of zeros, with room for its factor.
fn propose_grid(grid: Grid, v: &mut [f64; CELLS], out: &mut [u8]) -> Result<usize, Refusal>
    requires { (columns_of grid.job.words.now ≢ 1) × (v.old ≡ replicate 120 zero64) }
    ensures { Leaves (on_ending (length out.old) (job_of grid.entry.job.words.now) (solved_of (job_of grid.entry.job.words.now)).values (solved_of (job_of grid.entry.job.words.now)).ending) out.old result out.new }
{
    let n = grid.job.cells();
    let starts = starts_of(n, grid.z);
    let mut d = [0.0; CELLS];
    let mut l = [0.0; GRID_PLACES];
    right(grid.job, v);
    let ending = solve_grid(grid, &starts, &mut d, &mut l, v);
    on_ending(ending, grid.job, v, out)
}

// The same of a grid of a small reach. A function that is called from one place only is compiled into its caller, with its room on the stack; with this,
// the one that needs a grid's room is called from two places, and a line does not pay for it.
fn propose_small_grid(grid: Grid, v: &mut [f64; CELLS], out: &mut [u8]) -> Result<usize, Refusal>
    requires { (columns_of grid.job.words.now ≢ 1) × (v.old ≡ replicate 120 zero64) }
    ensures { Leaves (on_ending (length out.old) (job_of grid.entry.job.words.now) (solved_of (job_of grid.entry.job.words.now)).values (solved_of (job_of grid.entry.job.words.now)).ending) out.old result out.new }
{
    propose_grid(grid, v, out)
}

// The proposal by what the job is. A job that is no grid has one column.
fn propose_shape(job: ReadJob, columns: usize, out: &mut [u8]) -> Result<usize, Refusal>
    requires { (columns ≡ columns_of job.words.now) × (columns ≤ 12) }
    ensures { Leaves (on_ending (length out.old) (job_of job.entry.words.now) (solved_of (job_of job.entry.words.now)).values (solved_of (job_of job.entry.words.now)).ending) out.old result out.new }
{
    let mut v = [0.0; CELLS];
    if columns == 1 {
        return propose_line(job, &mut v, out);
    }
    let z = job.order() * columns;
    let grid = Grid { job, z };
    if z <= 12 {
        return propose_small_grid(grid, &mut v, out);
    }
    propose_grid(grid, &mut v, out)
}

// The proposal for a job that was read.
pub fn propose_for(job: ReadJob, out: &mut [u8]) -> Result<usize, Refusal>
    ensures { Leaves (proposed_of (length out.old) (job_of job.entry.words.now)) out.old result out.new }
{
    let columns = job.columns();
    if COLUMNS < columns {
        return Err(Refusal::NotProposed);
    }
    propose_shape(job, columns, out)
}

// The house proposal for a job pack. A refusal writes nothing; room is tested last.
pub fn propose(job: &[u8], out: &mut [u8]) -> Result<usize, Refusal>
    ensures { Leaves (propose_of (length out.old) job.now) out.old result out.new }
{
    let mut words = [0i64; JOB_WORDS];
    let k = packs::reading::read(job, Field::Society, &mut words)?;
    let job = ReadJob {
        words: &words[0..k],
    };
    propose_for(job, out)
}
