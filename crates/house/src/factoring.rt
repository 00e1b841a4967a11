// The factor of a line's band, row after row, up to the first thin pivot, and the values before rounding.
ghost use Rattle.std.specs.Prelude.{◌≡◌, ◌+◌, ◌-◌, ◌<◌, ◌≤◌, length, replicate, take};
ghost use Rattle.std.proofs.lemmas.List.Edits.{sets};
ghost use Rattle.factor.specs.Factor.{lowest, start_of, factor_step, factor_from};
ghost use Rattle.factor.specs.Places.{Placed};
ghost use Rattle.jobs.specs.Words.{job_of};
ghost use Rattle.house.specs.Band.{zero64, right_of};
ghost use Rattle.house.specs.Factoring.{rows_of, answered, Solves, front, HandsOut};
ghost use Rattle.house.specs.Proposal.{line_solved};

use crate::band::band;
use factor::{
    CELLS, Factor, STARTS, Thin, factor_row, lowest_of, put_row, start_at, starts_of, value_of,
};
use jobs::words::ReadJob;

// The most multipliers of a row, and the most of all rows.
pub const WIDTH: usize = 4;

pub const LINE_PLACES: usize = 480;

// A row of the factor: d(j), and L(j, j - 1 - o) at the offset o.
#[derive(Drop)]
pub struct Row {
    pub pivot: f64,
    pub multipliers: [f64; WIDTH],
}

#[derive(Drop)]
pub struct Step {
    pub pivot: Result<f64, f64>,
    pub row: Row,
}

// One step of the factoring: the row after those of a factor, with its pivot accepted or thin.
pub fn factor_step(entries: [f64; 5], before: Factor) -> Step
    requires { (before.cells < 120) × (before.reach ≤ 4) }
    ensures { result ≡ answered (factor_step entries before.entry.pivots.now before.entry.multipliers.now before.entry.reach before.entry.cells) }
{
    let mut multipliers = [0.0; WIDTH];
    let lo = lowest_of(before.cells, before.reach);
    let count = before.cells - lo;
    let pivot = factor_row(&entries, before, &mut multipliers[0..count]);
    let x = value_of(pivot);
    let row = Row {
        pivot: x,
        multipliers,
    };
    Step { pivot, row }
}

// Row j to its places among the multipliers of all rows.
fn put_made(lj: &[f64], l: &mut [f64], starts: &[u16; STARTS], j: usize, z: usize)
    requires { (j < 120) × (z ≤ 4) × Placed z (j + 1) starts.now l.old × (length lj.now ≡ 4) }
    ensures { l.new ≡ sets l.old (start_of z j) (take (j - lowest j z) lj.now) }
{
    let lo = lowest_of(j, z);
    let count = j - lo;
    let at = start_at(starts, j);
    put_row(&lj[0..count], l, at);
}

// The factor of the first n rows of a band, into lent pivots and multipliers: the rows made stand there, cell by cell. They are lent apart, since a
// `Factor` borrows both as they are. A row of a grid is made and held by another rule, so `Rows::factor` is a function of its own.
pub fn factor_band(
    band: [[f64; 5]; CELLS],
    n: usize,
    z: usize,
    starts: &[u16; STARTS],
    d: &mut [f64; CELLS],
    l: &mut [f64],
) -> Result<(), Thin>
    requires { (n ≤ 120) × (z ≤ 4) × Placed z n starts.now l.old }
    ensures { (result ≡ (factor_from (rows_of band) z n 0 d.old l.old).ending) × (d.new ≡ (factor_from (rows_of band) z n 0 d.old l.old).pivots) × (l.new ≡ (factor_from (rows_of band) z n 0 d.old l.old).multipliers) }
{
    for j in 0..n {
        let entries = band[j];
        let before = Factor {
            pivots: d,
            multipliers: l,
            starts,
            cells: j,
            reach: z,
        };
        let step = factor_step(entries, before);
        let row = step.row;
        d[j] = row.pivot;
        let lj = row.multipliers;
        put_made(&lj, l, starts, j, z);
        if let Err(pivot) = step.pivot {
            return Err(Thin { cell: j, pivot });
        }
    }
    Ok(())
}

// The front of a list, as much as is lent.
fn hand_out(from: &[f64], to: &mut [f64])
    requires { length to.old ≤ length from.now }
    ensures { to.new ≡ front to.old from.now }
{
    let k = to.len();
    put_row(&from[0..k], to, 0);
}

// How the factoring of a line ends, with its rows in lent lists of zeros; where it is whole, the values before rounding come in place of the right side.
// The band and the copy in which it is made take room that only this function needs.
#[inline(never)]
pub fn solve_line_into(
    job: ReadJob,
    v: &mut [f64; CELLS],
    d: &mut [f64; CELLS],
    l: &mut [f64; LINE_PLACES],
) -> Result<(), Thin>
    requires { (v.old ≡ right_of (job_of job.words.now)) × (d.old ≡ replicate 120 zero64) × (l.old ≡ replicate 480 zero64) }
    ensures { Solves (line_solved (job_of job.entry.words.now)) result d.new l.new v.new }
{
    let n = job.cells();
    let z = job.order();
    let a = band(job);
    let starts = starts_of(n, z);
    let ending = factor_band(a, n, z, &starts, d, l);
    let made = Factor {
        pivots: d,
        multipliers: l,
        starts: &starts,
        cells: n,
        reach: z,
    };
    made.solve_whole(ending, v)
}

// The same with pivots and multipliers that go out as far as room is lent for them: who has no use for them lends none, and whoever solves a grid too
// does not pay for a line's.
#[inline(never)]
pub fn solve_line(
    job: ReadJob,
    v: &mut [f64; CELLS],
    pivots: &mut [f64],
    multipliers: &mut [f64],
) -> Result<(), Thin>
    requires { (v.old ≡ right_of (job_of job.words.now)) × (length pivots.old ≤ 120) × (length multipliers.old ≤ 480) }
    ensures { HandsOut (line_solved (job_of job.entry.words.now)) pivots.old multipliers.old result pivots.new multipliers.new v.new }
{
    let mut d = [0.0; CELLS];
    let mut l = [0.0; LINE_PLACES];
    let ending = solve_line_into(job, v, &mut d, &mut l);
    hand_out(&d, pivots);
    hand_out(&l, multipliers);
    ending
}
