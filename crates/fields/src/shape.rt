// The shape of a job: its cells in rows and columns, with an order down and an order across. A one-dimensional job has one column. Small numbers are
// paired (8 times the one and the other) where their tests have just passed.
ghost use Rattle.std.specs.Prelude.{◌≡◌, ◌/◌, Ok};
ghost use Rattle.fields.specs.declared.Field.TheVariants.{OrderDown, OrderAcross, SecondConstant};
ghost use Rattle.fields.specs.Table.{rule, shaped, are_columns, is_order, after_order};

use crate::cells::Cells;
use crate::limits::{is_within, order_used};
use crate::{Barred, Field, Step};

// Whether x is an order for differences along so many cells.
fn is_order(length: u64, x: u64) -> bool
    ensures { result ≡ is_order length x }
{
    is_within(1, crate::limits::ORDER, x) && x < length
}

// Order field 5 announces a grid; any other order used has to be less than the count of cells.
pub fn after_order(n: u64, x: u64) -> Step
    ensures { result ≡ after_order n x }
{
    if x == crate::limits::GRID {
        return Ok(Field::Rows(n));
    }
    let z = order_used(x);
    if is_order(n, z) {
        let want = 8 * z + 1;
        return Ok(Field::Constant(
            Cells {
                n,
                row: 9,
                want,
                column: 0,
                cell: 0,
            },
            0,
        ));
    }
    Err(Barred::Unallowed)
}

// Whether so many rows of x cells are n cells; the product is made only where it cannot pass n.
fn are_columns(n: u64, rows: u64, x: u64) -> bool
    ensures { result ≡ are_columns n rows x }
{
    is_within(2, crate::limits::CELLS, x) && rows <= n / x && rows * x == n
}

pub fn after_columns(n: u64, rows: u64, x: u64) -> Step
    ensures { result ≡ rule (are_columns n rows x) (Ok (OrderDown (shaped n x 0 0) rows)) }
{
    if are_columns(n, rows, x) {
        let row = 8 * x;
        return Ok(Field::OrderDown(
            Cells {
                n,
                row,
                want: 0,
                column: 0,
                cell: 0,
            },
            rows,
        ));
    }
    Err(Barred::Unallowed)
}

pub fn after_down(c: Cells, rows: u64, x: u64) -> Step
    ensures { result ≡ rule (is_order rows x) (Ok (OrderAcross (shaped c.n (c.row / 8) x 0))) }
{
    let n = c.n;
    let columns = c.row / 8;
    if is_order(rows, x) {
        let row = 8 * columns;
        let want = 8 * x;
        return Ok(Field::OrderAcross(Cells {
            n,
            row,
            want,
            column: 0,
            cell: 0,
        }));
    }
    Err(Barred::Unallowed)
}

pub fn after_across(c: Cells, x: u64) -> Step
    ensures { result ≡ rule (is_order (c.row / 8) x) (Ok (SecondConstant (shaped c.n (c.row / 8) (c.want / 8) x))) }
{
    let n = c.n;
    let columns = c.row / 8;
    let down = c.want / 8;
    if is_order(columns, x) {
        let row = 8 * columns + x;
        let want = 8 * down + x;
        return Ok(Field::SecondConstant(Cells {
            n,
            row,
            want,
            column: 0,
            cell: 0,
        }));
    }
    Err(Barred::Unallowed)
}
