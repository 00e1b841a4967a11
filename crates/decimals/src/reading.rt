// A whole number read from the bytes of one field.
ghost use Rattle.std.specs.Prelude.{◌≡◌, ◌≤◌};
ghost use Rattle.decimals.specs.Whole.{largest, digit_after, leading_zero, whole_of};

// The largest number of a field.
pub const LARGEST: u64 = 1000000000;

// The number that digits come to with one byte more.
fn digit_after(before: u64, b: u8) -> Option<u64>
    requires { before ≤ largest }
    ensures { result ≡ digit_after before b }
{
    if !b.is_ascii_digit() {
        return None;
    }
    let value = 10 * before + u64::from(b - b'0');
    (value <= LARGEST).then_some(value)
}

// Whether a 0 stands in front of other bytes.
fn leading_zero(field: &[u8]) -> bool
    ensures { result ≡ leading_zero field.now }
{
    field.len() > 1 && field[0] == b'0'
}

// The number that a field stands for, if it stands for one.
pub fn whole_of(field: &[u8]) -> Option<u64>
    ensures { result ≡ whole_of field.now }
{
    if field.is_empty() || leading_zero(field) {
        return None;
    }
    let mut value = 0;
    for b in field {
        value = digit_after(value, *b)?;
    }
    Some(value)
}
