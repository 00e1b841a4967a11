// The constant table of signed difference rows (document 01, "Loss and gap"), read by the loss, the residuals and the house proposal's band.
#![tactic(auto)]

ghost use Rattle.std.specs.Prelude.{◌≤◌};
ghost use Rattle.rows.specs.Rows.{IsRow};

// One row an order, with zeros after its last coefficient; no job has the order 0.
pub const ROWS: [[i64; 5]; 5] = [
    [1, 0, 0, 0, 0],
    [-1, 1, 0, 0, 0],
    [1, -2, 1, 0, 0],
    [-1, 3, -3, 1, 0],
    [1, -4, 6, -4, 1],
];

// The row of the order z, which a job's loops are lent.
pub fn row_of(z: usize) -> [i64; 5]
    requires { z ≤ 4 }
    ensures { IsRow z result }
{
    ROWS[z]
}
