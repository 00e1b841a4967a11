// The proposal after a pass: values and multipliers rounded, asked of the check, and written.
ghost use Rattle.std.specs.Prelude.{◌≡◌, ◌-◌, length, get_or};
ghost use Rattle.std.specs.Float.{nan};
ghost use Rattle.packs.specs.Writing.{Leaves};
ghost use Rattle.jobs.specs.Words.{cells_of, links_of, job_of};
ghost use Rattle.checked.specs.Answers.{accepted};
ghost use Rattle.house.specs.Filled.{filled};
ghost use Rattle.house.specs.Proposal.{value_of};
ghost use Rattle.passes.specs.OnWords.{state};
ghost use Rattle.linked.specs.Proposal.{multiplier_word, verdict_after, written_after};

use factor::CELLS;
use house::proposal::values_into;
use house::rounding::round_out;
use jobs::proposal::PROPOSAL_WORDS;
use jobs::words::ReadJob;
use measure::check::check_proposal;
use measure::proposed::Proposal;
use passes::method::LINKS;
use refusals::Refusal;

// The largest multiplier of a proposal.
const LARGEST: u32 = 1000000000;

// A multiplier rounded out.
fn multiplier_word(y: f64) -> i64
    ensures { result ≡ multiplier_word y }
{
    round_out(y, 0, LARGEST) as i64
}

// The words of the proposal, into the first of a list: values, then multipliers.
fn words_after(job: ReadJob, v: &[f64; CELLS], y: &[f64; LINKS], made: &mut [i64; PROPOSAL_WORDS])
    ensures { made.new ≡ filled (λ i. multiplier_word (get_or y.now (i - cells_of job.entry.words.now) nan)) (links_of job.entry.words.now) (cells_of job.entry.words.now) (filled (λ i. value_of (job_of job.entry.words.now) i (get_or v.now i nan)) (cells_of job.entry.words.now) 0 made.old) }
{
    let n = job.cells();
    let links = job.links();
    let count = n + links;
    values_into(job, v, made);
    for at in n..count {
        made[at] = multiplier_word(y[at - n]);
    }
}

// Whether the check accepts the proposal.
pub fn accepts(job: ReadJob, v: &[f64; CELLS], y: &[f64; LINKS]) -> bool
    ensures { result ≡ accepted (verdict_after (job_of job.entry.words.now) (state v.now y.now)) }
{
    let mut made = [0i64; PROPOSAL_WORDS];
    words_after(job, v, y, &mut made);
    let count = job.cells() + job.links();
    let p = Proposal {
        job,
        words: &made[0..count],
    };
    check_proposal(p).is_ok()
}

// Writes the proposal's pack.
pub fn write_after(
    job: ReadJob,
    v: &[f64; CELLS],
    y: &[f64; LINKS],
    out: &mut [u8],
) -> Result<usize, Refusal>
    ensures { Leaves (written_after (length out.old) (job_of job.entry.words.now) (state v.now y.now)) out.old result out.new }
{
    let mut made = [0i64; PROPOSAL_WORDS];
    words_after(job, v, y, &mut made);
    let count = job.cells() + job.links();
    packs::writing::put(&made[0..count], out)
}
