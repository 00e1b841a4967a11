// Hildreth's method: one link's multiplier improved after the other. A link's solution is worked out anew at every pass: 160 of them kept would take 154 KB
// of stack.
ghost use Rattle.std.specs.Prelude.{◌≡◌, ◌≤◌};
ghost use Rattle.jobs.specs.Words.{cells_of, links_of, job_of};
ghost use Rattle.passes.specs.Hildreth.{raised_of, fallen_from, improved_of, link_of, pass_from};
ghost use Rattle.passes.specs.OnWords.{link_at, state};

use crate::link::Link;
use factor::{CELLS, Factor};
use jobs::words::ReadJob;
use measure::links::next_start;

// The most links a job has.
pub const LINKS: usize = 160;

// The multiplier y, improved.
fn raised(y: f64, s: f64, b: f64, c: f64) -> f64
    ensures { result ≡ raised_of y s b c }
{
    let e = s - b;
    let t = y + (2.0 * e) / c;
    if t > 0.0 { t } else { 0.0 }
}

// The first n values less h times x.
fn fall(v: &mut [f64; CELLS], x: &[f64; CELLS], h: f64, n: usize)
    requires { n ≤ 120 }
    ensures { v.new ≡ fallen_from x.now h n 0 v.old }
{
    for i in 0..n {
        v[i] = v[i] - h * x[i];
    }
}

// Improves the multiplier y of a link, and lets the values fall.
fn improve(link: Link, factor: Factor, y: f64, v: &mut [f64; CELLS]) -> f64
    requires { cells_of link.words.now ≤ 120 }
    ensures { (result ≡ (improved_of factor.entry.pivots.now factor.entry.multipliers.now factor.entry.reach factor.entry.cells (link_at link.entry.words.now link.entry.start) y v.old).multiplier) × (v.new ≡ (improved_of factor.entry.pivots.now factor.entry.multipliers.now factor.entry.reach factor.entry.cells (link_at link.entry.words.now link.entry.start) y v.old).values) }
{
    let mut x = link.right_for();
    factor.solve(&mut x);
    let c = link.sum_over(&x);
    let sum = link.sum_over(v);
    let b = link.bound();
    let new = raised(y, sum, b, c);
    let h = 0.5 * (new - y);
    fall(v, &x, h, factor.cells);
    new
}

// A pass: every link in turn.
pub fn pass(job: ReadJob, factor: Factor, v: &mut [f64; CELLS], y: &mut [f64; LINKS])
    ensures { state v.new y.new ≡ pass_from factor.entry.pivots.now factor.entry.multipliers.now factor.entry.reach factor.entry.cells (link_of (job_of job.entry.words.now)) (links_of job.entry.words.now) 0 (state v.old y.old) }
{
    let links = job.links();
    let mut s = job.first_link();
    for i in 0..links {
        let was = y[i];
        let link = Link {
            words: job.words,
            start: s,
        };
        let new = improve(link, factor, was, v);
        y[i] = new;
        s = next_start(job.words, s);
    }
}
