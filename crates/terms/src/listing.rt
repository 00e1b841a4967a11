// The words of all places of a table: its cells, then its links, once it is known that it meets its job and that there is room.
ghost use Rattle.std.specs.Prelude.{◌≡◌, ◌+◌, ◌*◌, ◌≤◌, pos, length};
ghost use Rattle.std.proofs.lemmas.List.Edits.{sets};
ghost use Rattle.packs.specs.Reading.{Hands};
ghost use Rattle.jobs.specs.Words.{cells_of, links_of, job_of};
ghost use Rattle.jobs.specs.Packs.{handed_out};
ghost use Rattle.measure.specs.Check.{verdict_for};
ghost use Rattle.measure.specs.Given.{Parted, Totalling};
ghost use Rattle.measure.specs.Running.{Added};
ghost use Rattle.measure.specs.OnWords.{smooth_on};
ghost use Rattle.terms.specs.Listing.{list_for};
ghost use Rattle.terms.specs.Steps.{entries_on, Longer};

use crate::entries::{BY_LINK, PLACE_WORDS, put_cell, put_entry};
use measure::meeting::meet;
use measure::proposed::Proposal;
use measure::{gap, links, residual, smooth};
use refusals::Refusal;
use tally::term;

// The words of all cells; `parts` holds what links and differences add to their residuals.
fn list_cells(p: Proposal, n: usize, parts: &[i64], out: &mut [i64])
    requires { Totalling p.job.words.now p.words.now n parts.now (pos 0) × (3 * n ≤ length out.old) }
    ensures { out.new ≡ sets out.old 0 (entries_on p.entry.job.words.now p.entry.words.now n) }
{
    for i in 0..n {
        let r = residual::residual_at(p, i, parts[i]);
        let t = gap::cell_term_at(p, i, r);
        put_cell(out, i, r, t);
    }
}

// The words of all links, behind those of the n cells.
fn list_links(p: Proposal, n: usize, count: usize, out: &mut [i64])
    requires { (n ≡ cells_of p.job.words.now) × ((count ≡ links_of p.job.words.now) × (3 * (n + count) ≤ length out.old)) }
    ensures { Longer p.entry.job.words.now p.entry.words.now n (n + count) out.old out.new }
{
    let mut s = p.job.first_link();
    for l in 0..count {
        let place = n + l;
        let y = p.words[place];
        let sum = links::link_sum(p, s);
        let b = links::bound_of(p.job.words, s);
        put_entry(out, place, term::link_term(y, b, sum), 0, BY_LINK);
        s = links::next_start(p.job.words, s);
    }
}

// The words of a table that meets its job, if there is room for them; its differences add to the parts of its residuals.
fn list_all(p: Proposal, n: usize, parts: &mut [i64], out: &mut [i64]) -> Result<usize, Refusal>
    requires { Parted p.job.words.now p.words.now n parts.old }
    ensures { Hands (handed_out (length out.old) (entries_on p.entry.job.words.now p.entry.words.now (cells_of p.entry.job.words.now + links_of p.entry.job.words.now)) (Ok (3 * (cells_of p.entry.job.words.now + links_of p.entry.job.words.now)))) out.old result out.new × Added (smooth_on p.entry.job.words.now p.entry.words.now) parts.old parts.new }
{
    smooth::smoothed(p, n, parts);
    let count = p.job.links();
    let k = PLACE_WORDS * (n + count);
    if out.len() < k {
        return Err(Refusal::NoRoom(k));
    }
    list_cells(p, n, parts, out);
    list_links(p, n, count, out);
    Ok(k)
}

// The words of a table, or the refusal of one that does not meet its job.
pub fn list_table(p: Proposal, out: &mut [i64]) -> Result<usize, Refusal>
    ensures { Hands (list_for (length out.old) (job_of p.entry.job.words.now) p.entry.words.now (verdict_for (job_of p.entry.job.words.now) p.entry.words.now)) out.old result out.new }
{
    let n = p.job.cells();
    let mut parts = [0i64; 120];
    meet(p, n, &mut parts)?;
    list_all(p, n, &mut parts, out)
}
