// One line of a list: its numbers, or what is wrong with it.
ghost use Rattle.std.specs.Prelude.{◌≡◌, ◌≤◌};
ghost use Rattle.decimals.specs.Whole.{largest};
ghost use Rattle.lists.specs.Lines.{pair_of, fields_of, in_sequence, tested, line_of, header_of};
ghost use Rattle.lists.specs.Cut.{same_bytes};

use crate::cut::parted;
use decimals::reading::whole_of;

// The numbers of a line: age, exposure and deaths; or age, 0 and rate.
#[derive(Clone, Copy)]
pub struct Entry {
    pub age: u64,
    pub exposure: u64,
    pub count: u64,
}

// What is wrong with a line. Whoever counts the lines tells which it is: `line_of` takes every k, also one that has no line's number.
#[derive(Clone, Copy)]
pub enum Fault {
    Malformed,
    Sequence,
    Deaths,
}

// The most lines of data.
pub const MOST_LINES: usize = 120;

// A line of two fields.
fn pair_of(line: &[u8]) -> Option<Entry>
    ensures { result ≡ pair_of line.now }
{
    let (age, count) = parted(line)?;
    Some(Entry {
        age: whole_of(age)?,
        exposure: 0,
        count: whole_of(count)?,
    })
}

// The fields of a line: three of a claims list, two of an export. Which list it is stays a bit, as the definitions have it: it picks a header, a count
// of fields and a test, and three closures would say no more.
fn fields_of(claims: bool, line: &[u8]) -> Option<Entry>
    ensures { result ≡ fields_of claims line.now }
{
    if !claims {
        return pair_of(line);
    }
    let (age, later) = parted(line)?;
    let age = whole_of(age)?;
    let later = pair_of(later)?;
    Some(Entry {
        age,
        exposure: later.age,
        count: later.count,
    })
}

// Whether the age of a line after k others, the last of which had the age `before`, is in sequence.
fn follows(k: usize, before: u64, age: u64) -> bool
    requires { before ≤ largest }
    ensures { result ≡ in_sequence k before age }
{
    k == 0 || age == before + 1
}

// A line's numbers after k lines of data, the last of which had the age `before`.
fn tested(claims: bool, k: usize, before: u64, entry: Entry) -> Result<Entry, Fault>
    requires { before ≤ largest }
    ensures { result ≡ tested claims k before (Some entry) }
{
    if !follows(k, before, entry.age) {
        return Err(Fault::Sequence);
    }
    if claims && entry.exposure < entry.count {
        return Err(Fault::Deaths);
    }
    Ok(entry)
}

// A line of data after k others.
pub fn line_of(claims: bool, k: usize, before: u64, line: &[u8]) -> Result<Entry, Fault>
    requires { before ≤ largest }
    ensures { result ≡ line_of claims k before line.now }
{
    if k >= MOST_LINES {
        return Err(Fault::Malformed);
    }
    let entry = fields_of(claims, line).ok_or(Fault::Malformed)?;
    tested(claims, k, before, entry)
}

// Whether a line is the header.
pub fn is_header(claims: bool, line: &[u8]) -> bool
    ensures { result ≡ same_bytes line.now (header_of claims) }
{
    if claims {
        return line == b"age,exposure,deaths".as_slice();
    }
    line == b"age,rate".as_slice()
}
