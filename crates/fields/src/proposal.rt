// The fields of a proposal pack: the values, then a multiplier for each link.
ghost use Rattle.std.specs.Prelude.{◌≡◌, ◌-◌};
ghost use Rattle.fields.specs.Table.{values_from, multipliers_from};

use crate::Field;

pub fn multipliers_from(left: u64) -> Field
    ensures { result ≡ multipliers_from left }
{
    if left == 0 {
        Field::End
    } else {
        Field::Multiplier(left)
    }
}

// Where a proposal pack begins.
pub fn values_from(left: u64, links: u64) -> Field
    ensures { result ≡ values_from left links }
{
    if left == 0 {
        return multipliers_from(links);
    }
    Field::Value(left, links)
}

pub fn after_value(left: u64, links: u64) -> Field
    ensures { result ≡ values_from (left - 1) links }
{
    values_from(left.saturating_sub(1), links)
}

pub fn after_multiplier(left: u64) -> Field
    ensures { result ≡ multipliers_from (left - 1) }
{
    multipliers_from(left.saturating_sub(1))
}
