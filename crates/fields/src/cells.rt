// The cells of a job pack: crude rate, weight, floor and ceiling, cell after cell.
ghost use Rattle.std.specs.Prelude.{◌≡◌};
ghost use Rattle.fields.specs.Table.{lacking, rows_wanted, next_row, weighed, after_ceiling};

use crate::limits::has_more;
use crate::{Barred, Field, Step};
use refusals::Refusal;

// The cell that a walk stands in: of how many; what a row is, 8 times its columns and its order across; what is wanted, 8 times the rows with enough
// positive weights and the weights that the cell's own row lacks; and its column.
#[derive(Clone, Copy)]
pub struct Cells {
    pub n: u64,
    pub row: u64,
    pub want: u64,
    pub column: u64,
    pub cell: u64,
}

// What is wanted after a weight.
fn lacks(want: u64, x: u64) -> u64
    ensures { result ≡ lacking want x }
{
    if 0 < x && 0 < want % 8 {
        want - 1
    } else {
        want
    }
}

// The rows wanted after a row's end.
fn rows_wanted(want: u64) -> u64
    ensures { result ≡ rows_wanted want }
{
    let rows = want / 8;
    if want % 8 == 0 {
        rows.saturating_sub(1)
    } else {
        rows
    }
}

fn next_row(c: Cells, want: u64) -> Cells
    ensures { result ≡ next_row c want }
{
    let rows = rows_wanted(want);
    let anew = 8 * rows + c.row % 8;
    Cells {
        want: anew,
        column: 0,
        ..c
    }
}

// A weight settles where the next cell stands in its row, and at a row's end whether the row counts.
pub fn with_weight(c: Cells, x: u64) -> Cells
    ensures { result ≡ weighed c x }
{
    let want = lacks(c.want, x);
    if has_more(c.column, c.row / 8) {
        let column = c.column + 1;
        return Cells { want, column, ..c };
    }
    next_row(c, want)
}

// A floor above its ceiling is 3; after the last cell, too few rows with enough positive weights are 4.
pub fn after_ceiling(c: Cells, lo: u64, x: u64) -> Step
    ensures { result ≡ after_ceiling c lo x }
{
    if x < lo {
        return Err(Barred::Other(Refusal::FloorAbove(c.cell as usize)));
    }
    if has_more(c.cell, c.n) {
        let cell = c.cell + 1;
        return Ok(Field::Crude(Cells { cell, ..c }));
    }
    if 0 < c.want / 8 {
        return Err(Barred::Other(Refusal::TooFewWeights));
    }
    Ok(Field::LinkCount(c.n))
}
