// Smoothing (document 01, "Loss and gap"; W-205): a table's differences, what they add to the loss, and what each cell gets back from them. A job's
// differences down and across are two directions of one function.
ghost use Rattle.std.specs.Prelude.{◌≡◌, ◌≤◌, pos, ◌*ℤ◌};
ghost use Rattle.certificate.specs.Differences.{returned};
ghost use Rattle.jobs.specs.Words.{word_at};
ghost use Rattle.measure.specs.Loss.{family_with, form_within, difference_within, roughness};
ghost use Rattle.measure.specs.Given.{Differs, GivesBack, Smooths, Smoothing};
ghost use Rattle.measure.specs.Running.{Added, back_at};
ghost use Rattle.measure.specs.OnWords.{rough_on, smooth_on};

use crate::proposed::Proposal;
use crate::{links, loss};

// D at i, 0 where it would run over the end of the row of `width` cells in which it starts.
fn difference_within(
    values: &[i64],
    row: &[i64; 5],
    z: usize,
    stride: usize,
    width: usize,
    i: usize,
) -> i64
    requires { Differs row.now z stride i values.now × (1 ≤ width) }
    ensures { result ≡ form_within width (word_at row.now) z stride i (word_at values.now) }
{
    let reach = z * stride;
    let column = i % width;
    let end = column + reach;
    if end < width {
        return loss::difference_at(values, row, z, stride, i);
    }
    0
}

// Adds y times each coefficient of the difference that starts at the cell i to the part of the cell that it falls on.
fn give_back(row: &[i64; 5], z: usize, stride: usize, i: usize, y: i64, parts: &mut [i64])
    requires { GivesBack row.now z stride i y parts.old }
    ensures { Added (back_at (word_at row.now) z stride i y) parts.old parts.new }
{
    for m in 0..z + 1 {
        let cell = i + m * stride;
        links::add_at(parts, cell, y, row[m]);
    }
}

// The differences of one direction: k times their squares is answered, and every cell's part gets 2k times what the cell gets back from them. With k 0, as
// across a job that is no grid, there is nothing to do.
fn smooth(
    values: &[i64],
    n: usize,
    z: usize,
    stride: usize,
    width: usize,
    k: i64,
    parts: &mut [i64],
) -> i64
    requires { Smooths values.now n z stride width k parts.old }
    ensures { (result ≡ k *ℤ roughness (family_with z stride n) (difference_within width (family_with z stride n) (word_at values.now))) × Added (λ i. pos 2 *ℤ k *ℤ returned (family_with z stride n) (difference_within width (family_with z stride n) (word_at values.now)) i) parts.old parts.new }
{
    if k == 0 {
        return 0;
    }
    let row = rows::row_of(z);
    let reach = z * stride;
    let count = n - reach;
    let mut rough = 0;
    for i in 0..count {
        let d = difference_within(values, &row, z, stride, width, i);
        let y = 2 * k * d;
        give_back(&row, z, stride, i, y, parts);
        rough += d * d;
    }
    k * rough
}

// A job's differences, down and across: what they add to the loss is answered, and what they add to the residuals goes into the parts.
pub fn smoothed(p: Proposal, n: usize, parts: &mut [i64]) -> i64
    requires { Smoothing p.job.words.now p.words.now n parts.old }
    ensures { (result ≡ rough_on p.entry.job.words.now p.entry.words.now) × Added (smooth_on p.entry.job.words.now p.entry.words.now) parts.old parts.new }
{
    let z = p.job.order();
    let across = p.job.across();
    let columns = p.job.columns();
    let k = p.job.constant();
    let second = p.job.second();
    let down = smooth(p.words, n, z, columns, n, k, parts);
    let along = smooth(p.words, n, across, 1, columns, second, parts);
    down + along
}
