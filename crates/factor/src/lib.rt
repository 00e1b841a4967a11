// The factor of a band and the solve with it, for any width: document 01's steps ("The house proposal"), each operation rounded once and in that
// document's order. The multipliers of all rows stand in one slice, row after row, so a line's and a grid's run through the same loops.
#![tactic(auto)]

ghost use Rattle.std.specs.Prelude.{◌≡◌, ◌+◌, ◌-◌, ◌≤◌, ◌<◌, length, get_or};
ghost use Rattle.std.proofs.lemmas.List.Edits.{sets};
ghost use Rattle.factor.specs.Factor.{less_by, lowest, row_at, product_of, row_from, no_multipliers, judged, value_of, factor_step};
ghost use Rattle.factor.specs.Places.{Starts, Placed, Placed-prop};

pub mod solve;

// The most cells a job has.
pub const CELLS: usize = 120;

// The places of a list of starts: one a row, and one for the end.
pub const STARTS: usize = 121;

// Where a factoring is thin: the cell, and the pivot that failed there.
#[derive(Clone, Copy)]
pub struct Thin {
    pub cell: usize,
    pub pivot: f64,
}

// The factor of a number of cells, in a band as wide as its reach: their pivots, and the multipliers of all rows, row after row from their starts on.
#[derive(Clone, Copy)]
pub struct Factor<'a> {
    pub pivots: &'a [f64; CELLS],
    pub multipliers: &'a [f64],
    pub starts: &'a [u16; STARTS],
    pub cells: usize,
    pub reach: usize,
    pub ghost cells_few: { cells ≤ 120 },
    pub ghost placed: { Placed reach cells starts.now multipliers.now } by { Placed-prop reach cells starts.now multipliers.now },
}

// max(0, j - z)
pub fn lowest_of(j: usize, z: usize) -> usize
    ensures { result ≡ lowest j z }
{
    if z <= j { j - z } else { 0 }
}

// Where the multipliers of each of n rows start, and where the last row's end.
pub fn starts_of(n: usize, z: usize) -> [u16; STARTS]
    requires { (n ≤ 120) × (z ≤ 48) }
    ensures { Starts z n result }
{
    let mut made = [0u16; STARTS];
    let mut at: usize = 0;
    for j in 0..n + 1 {
        made[j] = at as u16;
        let lo = lowest_of(j, z);
        at += j - lo;
    }
    made
}

// Where row i starts.
pub fn start_at(starts: &[u16; STARTS], i: usize) -> usize
    requires { i ≤ 120 }
    ensures { (result ≡ get_or starts.now i 0) × (result < 65536) }
{
    usize::from(starts[i])
}

impl<'a> Factor<'a> {
    // The multipliers of row i.
    fn row(self, i: usize) -> &'a [f64]
        requires { i < self.cells }
        ensures { (result.now ≡ row_at self.entry.reach self.entry.multipliers.now i) × (length result.now ≡ i - lowest i self.entry.reach) }
    {
        let at = start_at(self.starts, i);
        let next = i + 1;
        let end = start_at(self.starts, next);
        &self.multipliers[at..end]
    }
}

// x less (L(j,m) d(m)) L(i,m), for m rising from lo to i - 1; lj and li are the multipliers of the rows j and i.
fn less_products(
    lj: &[f64],
    li: &[f64],
    d: &[f64; CELLS],
    x: f64,
    j: usize,
    i: usize,
    lo: usize,
) -> f64
    requires { (lo ≤ i) × (i ≤ j) × (j < 120) × (j ≤ lo + length lj.now) × (i ≤ lo + length li.now) }
    ensures { result ≡ less_by (product_of lj.now j li.now i d.now) lo (i - lo) x }
{
    let mut rest = x;
    for m in lo..i {
        let p = j - m - 1;
        let q = i - m - 1;
        rest = rest - (lj[p] * d[m]) * li[q];
    }
    rest
}

// The multipliers of the row after those of a factor, from its entries of the band.
fn multipliers_into(entries: &[f64], before: Factor, lo: usize, made: &mut [f64])
    requires { (lo ≡ lowest before.cells before.reach) × (before.cells < 120) × (before.reach < length entries.now) × (length made.old ≡ before.cells - lo) }
    ensures { made.new ≡ row_from before.entry.reach entries.now before.entry.pivots.now before.entry.multipliers.now before.entry.cells lo (before.entry.cells - lo) lo made.old }
{
    let j = before.cells;
    for i in lo..j {
        let offset = j - i;
        let li = before.row(i);
        let rest = less_products(made, li, before.pivots, entries[offset], j, i, lo);
        let place = offset - 1;
        made[place] = rest / before.pivots[i];
    }
}

// A pivot that is greater than 1/1,024 is accepted; any other is the error.
fn judge(x: f64) -> Result<f64, f64>
    ensures { result ≡ judged x }
{
    if x > 0.0009765625 {
        return Ok(x);
    }
    Err(x)
}

// d(j) of a step's answer, whichever it is.
pub fn value_of(pivot: Result<f64, f64>) -> f64
    ensures { result ≡ value_of pivot }
{
    match pivot {
        Ok(x) => x,
        Err(x) => x,
    }
}

// One step of the factoring: the row after those of a factor into `made`, which is lent with zeros, and its pivot, accepted or thin.
pub fn factor_row(entries: &[f64], before: Factor, made: &mut [f64]) -> Result<f64, f64>
    requires { (before.cells < 120) × (before.reach < length entries.now) × (made.old ≡ no_multipliers (before.cells - lowest before.cells before.reach)) }
    ensures { (result ≡ judged (factor_step entries.now before.entry.pivots.now before.entry.multipliers.now before.entry.reach before.entry.cells).pivot) × (made.new ≡ (factor_step entries.now before.entry.pivots.now before.entry.multipliers.now before.entry.reach before.entry.cells).multipliers) }
{
    let j = before.cells;
    let lo = lowest_of(j, before.reach);
    multipliers_into(entries, before, lo, made);
    judge(less_products(made, made, before.pivots, entries[0], j, j, lo))
}

// A row's multipliers to their places among those of all rows.
pub fn put_row(row: &[f64], l: &mut [f64], at: usize)
    requires { at + length row.now ≤ length l.old }
    ensures { l.new ≡ sets l.old at row.now }
{
    l[at..at + row.len()].copy_from_slice(row);
}
