// The crude rate and the weight of one line.
ghost use Rattle.std.specs.Prelude.{◌≡◌, ◌≤◌, ◌<◌};
ghost use Rattle.imports.specs.Imports.{crude_of, weight_of};

use fields::limits::WEIGHT;

// A rate of 1 is so many.
const UNITS: u64 = 1000000;

// The crude rate, halves up.
pub fn crude_of(exposure: u32, deaths: u32) -> u64
    ensures { (result ≡ crude_of exposure deaths) × (result ≤ 9000000000000000) }
{
    let e = u64::from(exposure);
    if e == 0 {
        return 0;
    }
    (2 * (u64::from(deaths) * UNITS) + e) / (2 * e)
}

// The weight, rounded down, and the most that a job allows if that is less.
pub fn weight_of(divisor: u64, exposure: u32) -> u64
    requires { 0 < divisor }
    ensures { (result ≡ weight_of divisor exposure) × (result ≤ 1000) }
{
    (u64::from(exposure) / divisor).min(WEIGHT)
}
