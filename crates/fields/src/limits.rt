// What document 01 allows at most ("Numbers allowed"), and the tests against it.
ghost use Rattle.std.specs.Prelude.{◌≡◌, ◌+◌, ltb};
ghost use Rattle.fields.specs.Table.{within, order_used};

pub const SOCIETY: u64 = 7;

pub const JOB: u64 = 4294967295;

pub const CELLS: u64 = 120;

pub const ORDER: u64 = 4;

// The order field that announces a grid.
pub const GRID: u64 = 5;

pub const SECOND_CONSTANT: u64 = 999;

// Both constants together.
pub const CONSTANT: u64 = 1000;

pub const TOLERANCE: u64 = 1000000000000000;

pub const RATE: u64 = 1000000;

pub const WEIGHT: u64 = 1000;

pub const LINKS: u64 = 160;

pub const TERMS: u64 = 4;

pub const COEFFICIENT: u64 = 10;

pub const BOUND: u64 = 1000000000;

pub const MULTIPLIER: u64 = 1000000000;

// What 0 in the order field means.
pub const HOUSE_ORDER: u64 = 2;

pub fn is_within(least: u64, most: u64, x: u64) -> bool
    ensures { result ≡ within least most x }
{
    least <= x && x <= most
}

// Whether there is another after the one numbered `i` of `n`.
pub fn has_more(i: u64, n: u64) -> bool
    ensures { result ≡ ltb (i + 1) n }
{
    i < n.saturating_sub(1)
}

// The order that an order field asks for.
pub fn order_used(x: u64) -> u64
    ensures { result ≡ order_used x }
{
    if x == 0 { HOUSE_ORDER } else { x }
}
