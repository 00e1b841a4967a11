// The fields of a line: parted by one space, with a line feed at the end.
ghost use Rattle.std.specs.Prelude.{◌≤◌, [], ◌∷◌, length};
ghost use Rattle.checked.specs.Checked.{taken_from};
ghost use Rattle.checked.specs.Given.{Rates};
ghost use Rattle.line.specs.Line.{field, later, printed};
ghost use Rattle.decimals.specs.Puts.{Puts, Room};

use checked::count_at;
use decimals::printing::put_number;

const SPACE: u8 = 32;

const LINE_FEED: u8 = 10;

// A later field: a space and the number.
pub fn put_field(x: u64, at: usize, out: &mut [u8]) -> usize
    requires { Room (field x) at out.old }
    ensures { Puts (field x) out.old at result out.new }
{
    out[at] = SPACE;
    put_number(x, at + 1, out)
}

// The end of a line.
pub fn put_end(at: usize, out: &mut [u8]) -> usize
    requires { Room (10 ∷ []) at out.old }
    ensures { Puts (10 ∷ []) out.old at result out.new }
{
    out[at] = LINE_FEED;
    at + 1
}

// A line of two numbers.
pub fn put_two(a: u64, b: u64, out: &mut [u8]) -> usize
    requires { 1024 ≤ length out.old }
    ensures { Puts (printed a (b ∷ [])) out.old 0 result out.new }
{
    let first = put_number(a, 0, out);
    let second = put_field(b, first, out);
    put_end(second, out)
}

// The first n rates as later fields.
pub fn put_values(rates: &[i64], n: usize, at: usize, out: &mut [u8]) -> usize
    requires { Rates n rates.now × Room (later (taken_from 0 n rates.now)) at out.old }
    ensures { Puts (later (taken_from 0 n rates.now)) out.old at result out.new }
{
    let mut next = at;
    for i in 0..n {
        next = put_field(count_at(rates, i), next, out);
    }
    next
}
