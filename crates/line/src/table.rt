// The line of an accepted table: what the words of the two packs name, after the check's verdict.
ghost use Rattle.std.specs.Prelude.{◌≤◌, ◌∷◌, nat_abs, length};
ghost use Rattle.jobs.specs.Words.{count_at, cells_of};
ghost use Rattle.checked.specs.Checked.{taken_from};
ghost use Rattle.checked.specs.Given.{JobWords, Rates, Given};
ghost use Rattle.line.specs.Line.{printed};
ghost use Rattle.decimals.specs.Puts.{Puts, Room};
ghost use Rattle.line.specs.Puts.{head_fields};

use crate::parted::{put_end, put_field, put_values};
use checked::count_at;
use decimals::printing::put_number;
use measure::check::Figures;
use numbers::zigzag::size_of;

// The fields before the values.
fn put_head(society: u64, job: u64, loss: u64, gap: u64, out: &mut [u8]) -> usize
    requires { Room (head_fields society job loss gap) 0 out.old }
    ensures { Puts (head_fields society job loss gap) out.old 0 result out.new }
{
    let first = put_number(0, 0, out);
    let second = put_field(society, first, out);
    let third = put_field(job, second, out);
    let fourth = put_field(loss, third, out);
    put_field(gap, fourth, out)
}

// The line of the first n rates, under the society and the number of a job's words.
fn put_rates(words: &[i64], rates: &[i64], n: usize, loss: u64, gap: u64, out: &mut [u8]) -> usize
    requires { JobWords words.now × Rates n rates.now × (1024 ≤ length out.old) }
    ensures { Puts (printed 0 (count_at words.now 0 ∷ count_at words.now 1 ∷ loss ∷ gap ∷ taken_from 0 n rates.now)) out.old 0 result out.new }
{
    let society = count_at(words, 0);
    let number = count_at(words, 1);
    let head = put_head(society, number, loss, gap, out);
    let end = put_values(rates, n, head, out);
    put_end(end, out)
}

// The line of a table that the check has accepted with that loss and gap: the numbers of a proposal, for a job's words.
pub fn put_table(words: &[i64], rates: &[i64], figures: Figures, out: &mut [u8]) -> usize
    requires { Given words.now rates.now × (1024 ≤ length out.old) }
    ensures { Puts (printed 0 (count_at words.now 0 ∷ count_at words.now 1 ∷ nat_abs figures.loss ∷ nat_abs figures.gap ∷ taken_from 0 (cells_of words.now) rates.now)) out.old 0 result out.new }
{
    let loss = size_of(figures.loss);
    let gap = size_of(figures.gap);
    let n = count_at(words, 2);
    put_rates(words, rates, n as usize, loss, gap, out)
}
