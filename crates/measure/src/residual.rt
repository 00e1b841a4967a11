// The residual of a cell (document 01, "Loss and gap"), from what the links and the differences add to it.
ghost use Rattle.std.specs.Prelude.{◌≡◌, pos, ◌+ℤ◌, ◌-ℤ◌, ◌*ℤ◌};
ghost use Rattle.measure.specs.Given.{Slopes, ResidualAt};
ghost use Rattle.measure.specs.OnWords.{residual_with};

use crate::proposed::Proposal;

// 2w(v - u) + part
fn residual_from(w: i64, v: i64, u: i64, part: i64) -> i64
    requires { Slopes w v u part }
    ensures { result ≡ pos 2 *ℤ w *ℤ (v -ℤ u) +ℤ part }
{
    2 * w * (v - u) + part
}

// The residual of the cell i, to which links and differences add `part`.
pub fn residual_at(p: Proposal, i: usize, part: i64) -> i64
    requires { ResidualAt p.job.words.now p.words.now i part }
    ensures { result ≡ residual_with p.entry.job.words.now p.entry.words.now i part }
{
    let w = p.job.weight(i);
    let u = p.job.crude(i);
    residual_from(w, p.words[i], u, part)
}
