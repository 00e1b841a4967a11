// A list that went out, read back.
ghost use Rattle.std.specs.Prelude.{◌≤◌, length, take};
ghost use Rattle.exports.specs.Exports.{handed_rates, rates_of, Gives};

use lists::lines::MOST_LINES;
use lists::reading::read_list;
use refusals::Refusal;

// The first n values for the lender, if there are any and there is room for them. No word after them is touched.
fn hand_out(values: &[u32], n: usize, out: &mut [u32]) -> Result<usize, Refusal>
    requires { n ≤ length values.now }
    ensures { Gives (handed_rates (length out.old) (take n values.now) (Ok n)) out.old result out.new }
{
    if n == 0 {
        return Err(Refusal::NotAllowed(0));
    }
    if out.len() < n {
        return Err(Refusal::NoRoom(n));
    }
    out[..n].copy_from_slice(&values[..n]);
    Ok(n)
}

// Reads an export back: its values, as many as it answers. A refusal writes nothing.
pub fn rates(text: &[u8], out: &mut [u32]) -> Result<usize, Refusal>
    ensures { Gives (rates_of (length out.old) text.now) out.old result out.new }
{
    let mut exposures = [0u32; MOST_LINES];
    let mut values = [0u32; MOST_LINES];
    let n = read_list(text, false, &mut exposures, &mut values)?;
    hand_out(&values, n, out)
}
