// A number in decimal, in ASCII.
ghost use Rattle.std.specs.Prelude.{◌≡◌, ◌≤◌, length};
ghost use Rattle.decimals.specs.Decimal.{decimal};
ghost use Rattle.decimals.specs.Puts.{Puts, Room};

// The digit 0.
const ZERO: u64 = 48;

// Puts the digits of x at `at`, and answers the offset after them.
pub fn put_number(x: u64, at: usize, out: &mut [u8]) -> usize
    requires { Room (decimal x) at out.old }
    ensures { Puts (decimal x) out.old at result out.new }
{
    if x < 10 {
        out[at] = (ZERO + x) as u8;
        return at + 1;
    }
    let last = put_number(x / 10, at, out);
    out[last] = (ZERO + x % 10) as u8;
    last + 1
}

// How many digits x has.
pub fn size(x: u64) -> usize
    ensures { (result ≡ length (decimal x)) × (result ≤ 20) }
{
    if x < 10 {
        return 1;
    }
    let rest = size(x / 10);
    rest + 1
}
