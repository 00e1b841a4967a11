// The solve with a whole factor: forward, division, backward, each in the place of what it was made of.
ghost use Rattle.std.specs.Prelude.{◌≡◌, ◌+◌, ◌-◌, ◌≤◌, ◌<◌, length};
ghost use Rattle.factor.specs.Factor.{less_by};
ghost use Rattle.factor.specs.Solve.{highest, lower_term, upper_term, forward_from, divided_from, backward_from, solution_of, solved_by};

use crate::{CELLS, Factor, Thin, lowest_of, start_at};

// min(n - 1, j + z)
fn highest_of(j: usize, z: usize, n: usize) -> usize
    requires { (j < n) × (n ≤ 120) }
    ensures { result ≡ highest j z n }
{
    if z < n - j { j + z } else { n - 1 }
}

// x less L(j,m) y(m), for m rising from lo to j - 1; lj is the multipliers of row j.
fn less_lower(lj: &[f64], y: &[f64; CELLS], x: f64, j: usize, lo: usize) -> f64
    requires { (lo ≤ j) × (j < 120) × (j ≤ lo + length lj.now) }
    ensures { result ≡ less_by (lower_term lj.now j y.now) lo (j - lo) x }
{
    let mut rest = x;
    for m in lo..j {
        let p = j - m - 1;
        rest = rest - lj[p] * y[m];
    }
    rest
}

impl<'a> Factor<'a> {
    // y, in place of the right side.
    fn forward(self, y: &mut [f64; CELLS])
        ensures { y.new ≡ forward_from self.entry.multipliers.now self.entry.reach self.entry.cells 0 y.old }
    {
        for j in 0..self.cells {
            let lo = lowest_of(j, self.reach);
            let lj = self.row(j);
            let x = y[j];
            let rest = less_lower(lj, y, x, j, lo);
            y[j] = rest;
        }
    }

    // t, in place of y.
    fn divide(self, y: &mut [f64; CELLS])
        ensures { y.new ≡ divided_from self.entry.pivots.now self.entry.cells 0 y.old }
    {
        for j in 0..self.cells {
            y[j] = y[j] / self.pivots[j];
        }
    }

    // x less L(m,j) v(m), for m rising from j + 1 to top.
    fn less_upper(self, v: &[f64; CELLS], x: f64, j: usize, top: usize) -> f64
        requires { (j ≤ top) × (top < self.cells) × (top ≤ j + self.reach) }
        ensures { result ≡ less_by (upper_term self.entry.reach self.entry.multipliers.now j v.now) (j + 1) (top - j) x }
    {
        let mut rest = x;
        for m in j + 1..top + 1 {
            let p = m - j - 1;
            let at = start_at(self.starts, m);
            let place = at + p;
            rest = rest - self.multipliers[place] * v[m];
        }
        rest
    }

    // v, in place of t, for j falling.
    fn backward(self, v: &mut [f64; CELLS])
        ensures { v.new ≡ backward_from self.entry.multipliers.now self.entry.reach self.entry.cells self.entry.cells v.old }
    {
        for j in (0..self.cells).rev() {
            let top = highest_of(j, self.reach, self.cells);
            let x = v[j];
            let rest = self.less_upper(v, x, j, top);
            v[j] = rest;
        }
    }

    // The values before rounding, in place of the right side. This and the next become part of whoever calls them: with the solve apart, the factoring
    // of a grid of 12 columns took 2 to 5 parts in a hundred longer.
    #[inline(always)]
    pub fn solve(self, v: &mut [f64; CELLS])
        ensures { v.new ≡ solution_of self.entry.pivots.now self.entry.multipliers.now self.entry.reach self.entry.cells v.old }
    {
        self.forward(v);
        self.divide(v);
        self.backward(v);
    }

    // The same where the factor is whole; where it is thin, nothing is done. The ending is handed back.
    #[inline(always)]
    pub fn solve_whole(self, ending: Result<(), Thin>, v: &mut [f64; CELLS]) -> Result<(), Thin>
        ensures { (result ≡ ending) × (v.new ≡ solved_by self.entry.reach self.entry.cells v.old self.entry.pivots.now self.entry.multipliers.now ending) }
    {
        ending?;
        self.solve(v);
        Ok(())
    }
}
