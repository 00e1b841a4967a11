// A fetch (document 02, W-203): the job pack, the society's span, the slot that has the job's number, the counts, then what is kept there.
ghost use Rattle.std.specs.Prelude.{◌≡◌, ◌+◌, ◌*◌, ◌≤◌, length, drop};
ghost use Rattle.jobs.specs.Words.{job_of};
ghost use Rattle.slots.specs.Slots.{slot_words};
ghost use Rattle.checked.specs.Answers.{overwritten};
ghost use Rattle.counts.specs.Counts.{Ready};
ghost use Rattle.shelf.specs.Fetched.{fetch_at, fetch_in};
ghost use Rattle.shelf.specs.Calls.{own, fetch, said};
ghost use Rattle.shelf.specs.Given.{told};
ghost use Rattle.shelf.specs.Shelf.{layout_in, fetch_from};

use crate::kept::{Kept, fetch_kept};
use checked::{Answer, count_at};
use counts::{span_of, test_shelf};
use fields::Field;
use jobs::job::JOB_WORDS;
use jobs::words::ReadJob;
use refusals::Refusal;
use slots::search::Slots;
use slots::{HEAD, SLOT_WORDS, VALUES_END};

// The table of the slot that begins at the word `at`, for a job.
fn fetch_at(span: &[u32], at: usize, job: ReadJob, out: &mut [u32]) -> Result<Answer, Refusal>
    requires { at + slot_words ≤ length span.now }
    ensures answer { told result ≡ (fetch_at (job_of job.entry.words.now) (length out.old) (drop at span.now)).answer }
    ensures output { out.new ≡ overwritten out.old (fetch_at (job_of job.entry.words.now) (length out.old) (drop at span.now)).values }
{
    let n = job.cells();
    let links = job.links();
    if span[at] as usize != n {
        return Err(Refusal::NothingKept);
    }
    if span[at + 6] as usize != links {
        return Err(Refusal::NothingKept);
    }
    let a = at + HEAD;
    let b = a + n;
    let d = at + VALUES_END;
    let e = d + links;
    let kept = Kept {
        job,
        values: &span[a..b],
        multipliers: &span[d..e],
    };
    fetch_kept(kept, out)
}

// The table of the lowest slot with the job's number.
fn fetch_in(slots: Slots, job: ReadJob, out: &mut [u32]) -> Result<Answer, Refusal>
    ensures answer { told result ≡ (fetch_in slot_words slots.entry.count (job_of job.entry.words.now) (length out.old) slots.entry.span.now).answer }
    ensures output { out.new ≡ overwritten out.old (fetch_in slot_words slots.entry.count (job_of job.entry.words.now) (length out.old) slots.entry.span.now).values }
{
    let number = count_at(job.words, 1);
    let Some(p) = slots.find_job(number as u32) else {
        return Err(Refusal::NothingKept);
    };
    fetch_at(slots.span, SLOT_WORDS * p, job, out)
}

// The same, from the span of the society that the job names.
fn fetch_society(shelf: &[u32], job: ReadJob, out: &mut [u32]) -> Result<Answer, Refusal>
    requires { Ready shelf.now }
    ensures answer { told result ≡ (fetch_from (layout_in shelf.now) (job_of job.entry.words.now) (length out.old) shelf.now).answer }
    ensures output { out.new ≡ overwritten out.old (fetch_from (layout_in shelf.now) (job_of job.entry.words.now) (length out.old) shelf.now).values }
{
    let society = count_at(job.words, 0);
    let own = span_of(shelf, society as usize);
    let a = own.start;
    let e = own.end;
    let slots = Slots {
        span: &shelf[a..e],
        count: own.count,
    };
    fetch_in(slots, job, out)
}

// The table that is kept under a job pack's number, where it is accepted for that job.
pub fn fetch_pack(shelf: &[u32], job: &[u8], out: &mut [u32]) -> Result<Answer, Refusal>
    ensures answer { told result ≡ (said shelf.now (own (fetch job.now (length out.old)))).answer }
    ensures output { out.new ≡ overwritten out.old (said shelf.now (own (fetch job.now (length out.old)))).values }
{
    test_shelf(shelf)?;
    let mut words = [0i64; JOB_WORDS];
    let k = packs::reading::read(job, Field::Society, &mut words)?;
    let presented = ReadJob { words: &words[..k] };
    fetch_society(shelf, presented, out)
}
