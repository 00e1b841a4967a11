// The house proposal's values for a grid of at most 12 columns (document 02, W-205): A = W + k·Kd'Kd + k2·Ka'Ka, its band the order down times the
// columns, by document 01's steps over the whole band, zero entries included. A row of the band is made when its turn comes.
ghost use Rattle.std.specs.Prelude.{◌≡◌, ◌+◌, ◌-◌, ◌*◌, ◌<◌, ◌≤◌, length, replicate};
ghost use Rattle.std.proofs.lemmas.List.Edits.{sets};
ghost use Rattle.rows.specs.Rows.{IsRow};
ghost use Rattle.factor.specs.Factor.{lowest, start_of, no_multipliers, judged, factor_step, factor_from};
ghost use Rattle.factor.specs.Places.{Starts, Placed};
ghost use Rattle.jobs.specs.Words.{job_of, cells_of, columns_of, order_of, across_of};
ghost use Rattle.house.specs.Band.{zero64, right_of};
ghost use Rattle.house.specs.Factoring.{Solves};
ghost use Rattle.house.specs.Grid.{reach, grid_rows, grid_solved};
ghost use Rattle.house.specs.Held.{below_of, beside_of, entry_by, spread_of, IsRow-prop};

use crate::band::{entries_of, squares_at, whole_entry};
use factor::{CELLS, Factor, STARTS, Thin, factor_row, lowest_of, put_row, start_at, value_of};
use jobs::words::ReadJob;

// The most entries of a row of the band, the most multipliers of a row, and the most of all rows.
pub const ENTRIES: usize = 49;

pub const WIDTH: usize = 48;

pub const GRID_PLACES: usize = 4584;

// A grid of at most 12 columns, with the reach z of its band.
#[derive(Clone, Copy)]
pub struct Grid<'a> {
    pub job: ReadJob<'a>,
    pub z: usize,
    pub ghost columns_few: { columns_of job.words.now ≤ 12 },
    pub ghost reach_is: { z ≡ reach (job_of job.words.now) },
}

// A grid with the coefficients of its differences down and along the rows.
#[derive(Clone, Copy)]
struct Rows<'a> {
    grid: Grid<'a>,
    downs: &'a [i64; 5],
    sides: &'a [i64; 5],
    ghost down: { IsRow (order_of grid.job.words.now) downs.now } by { IsRow-prop (order_of grid.job.words.now) downs.now },
    ghost side: { IsRow (across_of grid.job.words.now) sides.now } by { IsRow-prop (across_of grid.job.words.now) sides.now },
}

// The entry at an offset o that is t whole rows and `past` cells: 0 where neither of the two has it.
fn entry_at(below: &[f64; 5], beside: &[f64; 5], o: usize, t: usize, past: usize) -> f64
    requires { t < 5 }
    ensures { result ≡ entry_by below.now beside.now o t past }
{
    if past == 0 {
        return below[t];
    }
    if o <= 4 {
        return beside[o];
    }
    0.0
}

// A row of the band, by offset, zero entries included.
fn spread(columns: usize, z: usize, below: &[f64; 5], beside: &[f64; 5], made: &mut [f64; ENTRIES])
    requires { (1 ≤ columns) × (z ≤ 48) × (z < 5 * columns) }
    ensures { made.new ≡ spread_of columns z below.now beside.now made.old }
{
    let mut t: usize = 0;
    let mut past: usize = 0;
    for o in 0..z + 1 {
        made[o] = entry_at(below, beside, o, t, past);
        past += 1;
        if past == columns {
            past = 0;
            t += 1;
        }
    }
}

// Row j of the factor, made in a list of zeros and put to its places among the multipliers, and its pivot, accepted or thin.
fn factor_into(
    entries: &[f64],
    d: &[f64; CELLS],
    l: &mut [f64],
    starts: &[u16; STARTS],
    j: usize,
    z: usize,
    made: &mut [f64],
) -> Result<f64, f64>
    requires { (j < 120) × (z < length entries.now) × Placed z (j + 1) starts.now l.old × (made.old ≡ no_multipliers (j - lowest j z)) }
    ensures { (result ≡ judged (factor_step entries.now d.now l.old z j).pivot) × (l.new ≡ sets l.old (start_of z j) (factor_step entries.now d.now l.old z j).multipliers) × (made.new ≡ (factor_step entries.now d.now l.old z j).multipliers) }
{
    let before = Factor {
        pivots: d,
        multipliers: l,
        starts,
        cells: j,
        reach: z,
    };
    let pivot = factor_row(entries, before, made);
    let at = start_at(starts, j);
    put_row(made, l, at);
    pivot
}

impl<'a> Rows<'a> {
    // A at (i, i - t·columns) by t, the diagonal whole, here and below.
    fn below_of(self, i: usize) -> [f64; 5]
        requires { i < cells_of self.grid.job.words.now }
        ensures { result ≡ below_of (job_of self.entry.grid.job.words.now) i }
    {
        let job = self.grid.job;
        let n = job.cells();
        let columns = job.columns();
        let down = job.order();
        let across = job.across();
        let constant = job.constant();
        let second = job.second();
        let rows = n / columns;
        let row = i / columns;
        let place = i % columns;
        let squares = squares_at(self.sides, columns, across, place, 0);
        let w = job.weight(i);
        let whole = whole_entry(w, second, squares, 0);
        entries_of(self.downs, whole, constant, rows, down, row)
    }

    // A at (i, i - o) by o from 1 on.
    fn beside_of(self, i: usize) -> [f64; 5]
        ensures { result ≡ beside_of (job_of self.entry.grid.job.words.now) i }
    {
        let job = self.grid.job;
        let columns = job.columns();
        let across = job.across();
        let second = job.second();
        let place = i % columns;
        entries_of(self.sides, 0, second, columns, across, place)
    }

    // Row i of the band, into a list of zeros.
    fn row(self, i: usize, made: &mut [f64; ENTRIES])
        requires { (i < cells_of self.grid.job.words.now) × (made.old ≡ replicate 49 zero64) }
        ensures { made.new ≡ grid_rows (job_of self.entry.grid.job.words.now) i }
    {
        let columns = self.grid.job.columns();
        let below = self.below_of(i);
        let beside = self.beside_of(i);
        spread(columns, self.grid.z, &below, &beside, made);
    }

    // One step of the factoring of the band.
    fn step(
        self,
        d: &[f64; CELLS],
        l: &mut [f64],
        starts: &[u16; STARTS],
        j: usize,
    ) -> Result<f64, f64>
        requires { (j < cells_of self.grid.job.words.now) × Placed self.grid.z (j + 1) starts.now l.old }
        ensures { (result ≡ judged (factor_step (grid_rows (job_of self.entry.grid.job.words.now) j) d.now l.old self.entry.grid.z j).pivot) × (l.new ≡ sets l.old (start_of self.entry.grid.z j) (factor_step (grid_rows (job_of self.entry.grid.job.words.now) j) d.now l.old self.entry.grid.z j).multipliers) }
    {
        let z = self.grid.z;
        let mut entries = [0.0; ENTRIES];
        self.row(j, &mut entries);
        let mut made = [0.0; WIDTH];
        let lo = lowest_of(j, z);
        let count = j - lo;
        factor_into(&entries, d, l, starts, j, z, &mut made[0..count])
    }

    // The factor of the band, into lent pivots and multipliers.
    fn factor(self, starts: &[u16; STARTS], d: &mut [f64; CELLS], l: &mut [f64]) -> Result<(), Thin>
        requires { Placed self.grid.z (cells_of self.grid.job.words.now) starts.now l.old }
        ensures { (result ≡ (factor_from (grid_rows (job_of self.entry.grid.job.words.now)) self.entry.grid.z (cells_of self.entry.grid.job.words.now) 0 d.old l.old).ending) × (d.new ≡ (factor_from (grid_rows (job_of self.entry.grid.job.words.now)) self.entry.grid.z (cells_of self.entry.grid.job.words.now) 0 d.old l.old).pivots) × (l.new ≡ (factor_from (grid_rows (job_of self.entry.grid.job.words.now)) self.entry.grid.z (cells_of self.entry.grid.job.words.now) 0 d.old l.old).multipliers) }
    {
        let n = self.grid.job.cells();
        for j in 0..n {
            let pivot = self.step(d, l, starts, j);
            let x = value_of(pivot);
            d[j] = x;
            if let Err(pivot) = pivot {
                return Err(Thin { cell: j, pivot });
            }
        }
        Ok(())
    }
}

// How the factoring of a grid ends, with its rows in lent lists of zeros; where it is whole, the values before rounding come in place of the right side.
pub fn solve_grid(
    grid: Grid,
    starts: &[u16; STARTS],
    d: &mut [f64; CELLS],
    l: &mut [f64; GRID_PLACES],
    v: &mut [f64; CELLS],
) -> Result<(), Thin>
    requires { Starts grid.z (cells_of grid.job.words.now) starts.now × (d.old ≡ replicate 120 zero64) × (l.old ≡ replicate 4584 zero64) × (v.old ≡ right_of (job_of grid.job.words.now)) }
    ensures { Solves (grid_solved (job_of grid.entry.job.words.now)) result d.new l.new v.new }
{
    let job = grid.job;
    let downs = rows::row_of(job.order());
    let sides = rows::row_of(job.across());
    let rows = Rows {
        grid,
        downs: &downs,
        sides: &sides,
    };
    let ending = rows.factor(starts, d, l);
    let made = Factor {
        pivots: d,
        multipliers: l,
        starts,
        cells: job.cells(),
        reach: grid.z,
    };
    made.solve_whole(ending, v)
}
