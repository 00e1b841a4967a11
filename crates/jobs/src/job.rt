// The job pack.
ghost use Rattle.std.specs.Prelude.{◌≤◌, length, take, Ok};
ghost use Rattle.packs.specs.Reading.{Hands};
ghost use Rattle.packs.specs.Writing.{roomed, Leaves};
ghost use Rattle.jobs.specs.Packs.{handed_out, read_job_into, write_job};

use fields::Field;
use refusals::Refusal;

// A job has at most so many words: 11 before its cells if it is a grid, 4 a cell, the link count, and 10 a link.
pub const JOB_WORDS: usize = 2092;

// The first k words for the lender, if there is room for them.
fn hand_out(words: &[i64], k: usize, out: &mut [i64]) -> Result<usize, Refusal>
    requires { k ≤ length words.now }
    ensures { Hands (handed_out (length out.old) (take k words.now) (Ok k)) out.old result out.new }
{
    if out.len() < k {
        return Err(Refusal::NoRoom(k));
    }
    out[..k].copy_from_slice(&words[..k]);
    Ok(k)
}

// Reads a job pack: its words in pack order, as many as it answers. A refusal writes nothing; room is tested last.
pub fn read_job(pack: &[u8], out: &mut [i64]) -> Result<usize, Refusal>
    ensures { Hands (read_job_into (length out.old) pack.now) out.old result out.new }
{
    let mut words = [0i64; JOB_WORDS];
    let k = packs::reading::read(pack, Field::Society, &mut words)?;
    hand_out(&words, k, out)
}

// Writes the pack of a job's words, or refuses as reading that pack would and writes nothing; room is tested last.
pub fn write_job(words: &[i64], out: &mut [u8]) -> Result<usize, Refusal>
    ensures { Leaves (roomed (length out.old) (write_job words.now)) out.old result out.new }
{
    let mut numbers = [0i64; JOB_WORDS];
    let k = packs::writing::numbers_of(words, Field::Society, &mut numbers)?;
    packs::writing::put(&numbers[0..k], out)
}
