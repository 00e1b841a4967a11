// Keeping an accepted table: the check's verdict, then what the two packs name, then the society's slots.
ghost use Rattle.std.specs.Prelude.{◌≡◌, ◌++◌, ◌≤◌, nat_abs, length, drop};
ghost use Rattle.checked.specs.Checked.{taken_from};
ghost use Rattle.counts.specs.Counts.{Ready};
ghost use Rattle.shelf.specs.Shelf.{layout_in};
ghost use Rattle.checked.specs.Given.{JobWords, Wordlike, Given};
ghost use Rattle.shelf.specs.Calls.{own, keep, said, after};
ghost use Rattle.shelf.specs.Given.{told, Rated, kept_from, table_kept};

use crate::societies::keep_society;
use checked::{Answer, count_at};
use counts::test_shelf;
use jobs::job::JOB_WORDS;
use jobs::proposal::PROPOSAL_WORDS;
use jobs::words::links_at;
use measure::check::{Figures, check_into};
use numbers::zigzag::size_of;
use refusals::Refusal;
use slots::table::Table;

// n numbers from the number a on, as words of a slot, by index: after `iter_mut` a proof knows the length of a slice alone.
fn copy_rates(rates: &[i64], a: usize, n: usize, values: &mut [u32])
    requires { Wordlike a n rates.now × (n ≤ length values.old) }
    ensures { values.new ≡ taken_from a n rates.now ++ drop n values.old }
{
    for i in 0..n {
        values[i] = count_at(rates, a + i) as u32;
    }
}

// Keep the first n rates with the multipliers after them, under the society and the number of a job's words.
fn keep_rates(
    shelf: &mut [u32],
    words: &[i64],
    rates: &[i64],
    n: usize,
    links: usize,
    loss: u64,
    gap: u64,
)
    requires { Ready shelf.old × JobWords words.now × Rated n links rates.now }
    ensures { shelf.new ≡ kept_from (layout_in shelf.old) words.now loss gap (taken_from 0 n rates.now) (taken_from n links rates.now) shelf.old }
{
    let mut values = [0u32; 120];
    copy_rates(rates, 0, n, &mut values);
    let mut multipliers = [0u32; 160];
    copy_rates(rates, n, links, &mut multipliers);
    let society = count_at(words, 0);
    let number = count_at(words, 1);
    let table = Table {
        job: number as u32,
        loss,
        gap,
        values: &values[..n],
        multipliers: &multipliers[..links],
    };
    keep_society(shelf, society as u32, table);
}

// Keep a table that the check has accepted with those figures: the numbers of a proposal, for a job's words.
fn keep_table(shelf: &mut [u32], words: &[i64], rates: &[i64], figures: Figures) -> Answer
    requires { Ready shelf.old × Given words.now rates.now }
    ensures answer { result ≡ record { number = 0; place = 0; loss = nat_abs figures.loss; gap = nat_abs figures.gap } }
    ensures shelf { shelf.new ≡ table_kept (layout_in shelf.old) words.now (nat_abs figures.loss) (nat_abs figures.gap) rates.now shelf.old }
{
    let loss = size_of(figures.loss);
    let gap = size_of(figures.gap);
    let n = count_at(words, 2) as usize;
    let at = links_at(words, n);
    let links = count_at(words, at) as usize;
    keep_rates(shelf, words, rates, n, links, loss, gap);
    Answer {
        number: 0,
        place: 0,
        loss,
        gap,
    }
}

// Check the proposal and, on a shelf that passes its test, keep its table where it is accepted.
pub fn keep_checked(shelf: &mut [u32], job: &[u8], proposal: &[u8]) -> Result<Answer, Refusal>
    ensures answer { told result ≡ (said shelf.old (own (keep job.now proposal.now))).answer }
    ensures shelf { shelf.new ≡ after shelf.old (own (keep job.now proposal.now)) }
{
    test_shelf(shelf)?;
    let mut words = [0i64; JOB_WORDS];
    let mut rates = [0i64; PROPOSAL_WORDS];
    let figures = check_into(job, proposal, &mut words, &mut rates)?;
    Ok(keep_table(shelf, &words, &rates, figures))
}
