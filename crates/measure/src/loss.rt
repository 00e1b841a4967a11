// Differences and loss (document 01, "Loss and gap"). A table is given by its values, the first words of a proposal.
ghost use Rattle.std.specs.Prelude.{◌≡◌, ◌+◌, ◌*◌, ◌≤◌, ◌<◌, ◌*ℤ◌};
ghost use Rattle.certificate.specs.Differences.{form_at};
ghost use Rattle.jobs.specs.Words.{word_at, cells_of};
ghost use Rattle.measure.specs.Given.{Differs};
ghost use Rattle.measure.specs.OnWords.{fit_term_on, fit_on, loss_on, rough_on};

use crate::proposed::Proposal;

// The row's coefficient m times the rate that it falls on.
fn difference_term(
    values: &[i64],
    row: &[i64; 5],
    z: usize,
    stride: usize,
    i: usize,
    m: usize,
) -> i64
    requires { Differs row.now z stride i values.now × (m ≤ z) }
    ensures { result ≡ word_at row.now m *ℤ word_at values.now (i + m * stride) }
{
    let at = i + m * stride;
    row[m] * values[at]
}

// D at i, of any row, order and stride. (Of `0..=z` the end of the range stays open in the proof.)
pub fn difference_at(values: &[i64], row: &[i64; 5], z: usize, stride: usize, i: usize) -> i64
    requires { Differs row.now z stride i values.now }
    ensures { result ≡ form_at (word_at row.now) z stride i (word_at values.now) }
{
    let mut total = 0;
    for m in 0..z + 1 {
        total += difference_term(values, row, z, stride, i, m);
    }
    total
}

// w(v - u)² of the cell i.
fn fit_term(p: Proposal, i: usize) -> i64
    requires { i < cells_of p.job.words.now }
    ensures { result ≡ fit_term_on p.entry.job.words.now p.entry.words.now i }
{
    let u = p.job.crude(i);
    let w = p.job.weight(i);
    let d = p.words[i] - u;
    w * (d * d)
}

// The first part of the loss, over all n cells.
fn fit(p: Proposal) -> i64
    ensures { result ≡ fit_on p.entry.job.words.now p.entry.words.now }
{
    let n = p.job.cells();
    let mut total = 0;
    for i in 0..n {
        total += fit_term(p, i);
    }
    total
}

// F, from the roughness of the table.
pub fn loss(p: Proposal, rough: i64) -> i64
    requires { rough ≡ rough_on p.job.words.now p.words.now }
    ensures { result ≡ loss_on p.entry.job.words.now p.entry.words.now }
{
    let part = fit(p);
    part + rough
}
