// The band of A = W + kK'K and the right side Wu: whole numbers, cast exactly.
ghost use Rattle.std.specs.Prelude.{◌≡◌, ◌<◌, ◌≤◌, replicate, ◌*ℤ◌, unsigned_abs};
ghost use Rattle.std.specs.Float.{binary64};
ghost use Rattle.std.specs.Float.Ieee.{of_int};
ghost use Rattle.jobs.specs.Words.{job_of};
ghost use Rattle.rows.specs.Rows.{IsRow};
ghost use Rattle.house.specs.Band.{product_term, squares_at, whole_entry, entries_of, zero64, band_of, right_of};

use factor::CELLS;
use jobs::words::ReadJob;

// A whole number, cast exactly.
pub fn cast(x: i64) -> f64
    requires { unsigned_abs x ≤ 1000000000 }
    ensures { result ≡ of_int binary64 x }
{
    x as f64
}

// What the difference at i - m brings to K'K at (i, i - o): nothing where it does not use both cells.
fn product_term(row: &[i64; 5], n: usize, z: usize, i: usize, o: usize, m: usize) -> i64
    requires { (n ≤ 120) × (z ≤ 4) × (i < n) × (m ≤ z) × IsRow z row.now }
    ensures { result ≡ product_term n z i o m }
{
    if m < o {
        return 0;
    }
    if i < m {
        return 0;
    }
    let last = i - m + z;
    if n <= last {
        return 0;
    }
    let other = m - o;
    row[m] * row[other]
}

// K'K at (i, i - o).
pub fn squares_at(row: &[i64; 5], n: usize, z: usize, i: usize, o: usize) -> i64
    requires { (n ≤ 120) × (z ≤ 4) × (i < n) × IsRow z row.now }
    ensures { result ≡ squares_at n z i o }
{
    let mut total = 0i64;
    for m in 0..z + 1 {
        total += product_term(row, n, z, i, o, m);
    }
    total
}

// A at (i, i - o).
pub fn whole_entry(w: i64, k: i64, squares: i64, o: usize) -> i64
    requires { (unsigned_abs w ≤ 181000) × (unsigned_abs k ≤ 1000) × (unsigned_abs squares ≤ 180) }
    ensures { result ≡ whole_entry w k squares o }
{
    if o == 0 {
        return w + k * squares;
    }
    k * squares
}

fn entry_at(row: &[i64; 5], w: i64, k: i64, n: usize, z: usize, i: usize, o: usize) -> f64
    requires { (unsigned_abs w ≤ 181000) × (unsigned_abs k ≤ 1000) × (n ≤ 120) × (z ≤ 4) × (i < n) × IsRow z row.now }
    ensures { result ≡ of_int binary64 (whole_entry w k (squares_at n z i o) o) }
{
    let squares = squares_at(row, n, z, i, o);
    let whole = whole_entry(w, k, squares, o);
    cast(whole)
}

// Row i of the band.
pub fn entries_of(row: &[i64; 5], w: i64, k: i64, n: usize, z: usize, i: usize) -> [f64; 5]
    requires { (unsigned_abs w ≤ 181000) × (unsigned_abs k ≤ 1000) × (n ≤ 120) × (z ≤ 4) × (i < n) × IsRow z row.now }
    ensures { result ≡ entries_of w k n z i }
{
    let a = entry_at(row, w, k, n, z, i, 0);
    let b = entry_at(row, w, k, n, z, i, 1);
    let c = entry_at(row, w, k, n, z, i, 2);
    let d = entry_at(row, w, k, n, z, i, 3);
    let e = entry_at(row, w, k, n, z, i, 4);
    [a, b, c, d, e]
}

// The band of a job, by cell and offset.
pub fn band(job: ReadJob) -> [[f64; 5]; CELLS]
    ensures { result ≡ band_of (job_of job.entry.words.now) }
{
    let n = job.cells();
    let z = job.order();
    let row = rows::row_of(z);
    let mut made = [[0.0; 5]; CELLS];
    for i in 0..n {
        let w = job.weight(i);
        let k = job.constant();
        let entries = entries_of(&row, w, k, n, z, i);
        made[i] = entries;
    }
    made
}

fn right_at(w: i64, u: i64) -> f64
    requires { (unsigned_abs w ≤ 1000) × (unsigned_abs u ≤ 1000000) }
    ensures { result ≡ of_int binary64 (w *ℤ u) }
{
    cast(w * u)
}

// The right side of a job, by cell, into a list of zeros.
pub fn right(job: ReadJob, made: &mut [f64; CELLS])
    requires { made.old ≡ replicate 120 zero64 }
    ensures { made.new ≡ right_of (job_of job.entry.words.now) }
{
    let n = job.cells();
    for i in 0..n {
        let w = job.weight(i);
        let u = job.crude(i);
        made[i] = right_at(w, u);
    }
}
