// A table that goes out as a list.
ghost use Rattle.std.specs.Prelude.{◌≡◌, ◌+◌, ◌≤◌, length};
ghost use Rattle.packs.specs.Writing.{in_room, Leaves};
ghost use Rattle.decimals.specs.Whole.{largest};
ghost use Rattle.decimals.specs.Puts.{Puts, Room};
ghost use Rattle.exports.specs.Exports.{export_line, export_lines, export_text, all_upto, exportable, export_of};

use decimals::printing::put_number;
use decimals::reading::LARGEST;
use lists::lines::MOST_LINES;
use refusals::Refusal;

// Puts bytes at `at`, and answers the offset after them.
fn put_bytes(part: &[u8], at: usize, out: &mut [u8]) -> usize
    requires { Room part.now at out.old }
    ensures { Puts part.now out.old at result out.new }
{
    let next = at + part.len();
    out[at..next].copy_from_slice(part);
    next
}

// Puts the line of one age.
fn put_line(age: u64, rate: u64, at: usize, out: &mut [u8]) -> usize
    requires { Room (export_line age rate) at out.old }
    ensures { Puts (export_line age rate) out.old at result out.new }
{
    let comma = put_number(age, at, out);
    let value = put_bytes(b",", comma, out);
    let end = put_number(rate, value, out);
    put_bytes(b"\r\n", end, out)
}

// Puts a line for each rate, from the age `first` on.
fn put_lines(rates: &[u32], first: u64, at: usize, out: &mut [u8]) -> usize
    requires { (first ≤ largest) × ((length rates.now ≤ 120) × Room (export_lines first rates.now) at out.old) }
    ensures { Puts (export_lines first rates.now) out.old at result out.new }
{
    let mut next = at;
    let mut age = first;
    for rate in rates {
        next = put_line(age, u64::from(*rate), next, out);
        age += 1;
    }
    next
}

// How many bytes the line of one age has.
fn line_size(age: u64, rate: u64) -> usize
    ensures { (result ≡ length (export_line age rate)) × (result ≤ 43) }
{
    let a = decimals::printing::size(age);
    let b = decimals::printing::size(rate);
    a + b + 3
}

// How many bytes the lines of all rates have.
fn lines_size(rates: &[u32], first: u64) -> usize
    requires { (first ≤ largest) × (length rates.now ≤ 120) }
    ensures { (result ≡ length (export_lines first rates.now)) × (result ≤ 5160) }
{
    let mut total = 0;
    let mut age = first;
    for rate in rates {
        total += line_size(age, u64::from(*rate));
        age += 1;
    }
    total
}

// Whether no rate is above the largest number of a list.
fn all_upto(rates: &[u32]) -> bool
    ensures { result ≡ all_upto largest rates.now }
{
    rates.iter().all(|rate| u64::from(*rate) <= LARGEST)
}

// Whether a table may go out.
fn is_exportable(rates: &[u32], first: u64) -> bool
    ensures { result ≡ exportable first rates.now }
{
    let n = rates.len();
    n >= 1
        && n <= MOST_LINES
        && first <= LARGEST
        && first + (n as u64 - 1) <= LARGEST
        && all_upto(rates)
}

// Writes a table that may go out.
fn export_lines(rates: &[u32], first: u64, out: &mut [u8]) -> Result<usize, Refusal>
    requires { (first ≤ largest) × (length rates.now ≤ 120) }
    ensures { Leaves (in_room (length out.old) (export_text first rates.now) (Ok (length (export_text first rates.now)))) out.old result out.new }
{
    let size = 10 + lines_size(rates, first);
    if out.len() < size {
        return Err(Refusal::NoRoom(size));
    }
    let next = put_bytes(b"age,rate\r\n", 0, out);
    let end = put_lines(rates, first, next, out);
    Ok(end)
}

// Writes a table as a list from the age `first` on, or refuses and writes nothing.
pub fn export(rates: &[u32], first: u64, out: &mut [u8]) -> Result<usize, Refusal>
    ensures { Leaves (export_of (length out.old) first rates.now) out.old result out.new }
{
    if !is_exportable(rates, first) {
        return Err(Refusal::NotAllowed(0));
    }
    export_lines(rates, first, out)
}
