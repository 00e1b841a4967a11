// The leading row of a shelf (document 02, W-209): which counts of slots are allowed, where a society's span starts and how many slots it has, and
// clearing.
#![tactic(auto)]

ghost use Rattle.std.specs.Prelude.{◌≡◌, ◌+◌, ◌*◌, ◌<◌, ◌≤◌, length, [], ◌∷◌};
ghost use Rattle.slots.specs.Slots.{slot_words};
ghost use Rattle.counts.specs.Counts.{societies, shelf_words, count_in, slots_below, is_wrong, lowest_wrong, passed, test_total, test_row, test_length, test_shelf, row_in, start_in, Ready, cleared};
ghost use Rattle.counts.specs.Given.{Counts};

use refusals::Refusal;
use slots::SLOT_WORDS;

// The societies, the most slots of one and of all, and the words of a shelf.
const SOCIETIES: usize = 8;

const MOST_SLOTS: u32 = 16;

const ALL_SLOTS: usize = 32;

const SHELF_WORDS: usize = 9192;

// Where a society's span starts and ends, and how many slots it has.
#[derive(Clone, Copy)]
pub struct Span {
    pub start: usize,
    pub end: usize,
    pub count: usize,
}

// A count is not 1 to 16.
fn is_wrong(count: u32) -> bool
    ensures { result ≡ is_wrong (count ∷ []) }
{
    !(1..=MOST_SLOTS).contains(&count)
}

// The lowest society whose count is wrong.
fn lowest_wrong(row: &[u32]) -> Option<usize>
    requires { length row.now ≡ societies }
    ensures { result ≡ lowest_wrong row.now }
{
    row.iter().position(|count| is_wrong(*count))
}

// The slots of the societies below s.
fn slots_below(row: &[u32], s: usize) -> usize
    requires { Counts row.now s }
    ensures { result ≡ slots_below (count_in row.now) s }
{
    row[..s].iter().map(|count| *count as usize).sum()
}

// The total of a row whose every count is 1 to 16.
fn test_total(row: &[u32]) -> Result<(), Refusal>
    requires { Counts row.now societies }
    ensures { result ≡ test_total row.now }
{
    if ALL_SLOTS < slots_below(row, SOCIETIES) {
        return Err(Refusal::CountsNotAllowed(SOCIETIES));
    }
    Ok(())
}

// Whether a row of counts is allowed.
fn test_row(row: &[u32]) -> Result<(), Refusal>
    requires { length row.now ≡ societies }
    ensures { result ≡ test_row row.now }
{
    if let Some(society) = lowest_wrong(row) {
        return Err(Refusal::CountsNotAllowed(society));
    }
    test_total(row)
}

// Whether a shelf has all its words.
fn test_length(shelf: &[u32]) -> Result<(), Refusal>
    ensures { result ≡ test_length shelf.now }
{
    if shelf.len() != SHELF_WORDS {
        return Err(Refusal::NoRoom(SHELF_WORDS));
    }
    Ok(())
}

// Whether a society's call on a shelf may go on: its length, then its leading row.
pub fn test_shelf(shelf: &[u32]) -> Result<(), Refusal>
    ensures { result ≡ test_shelf (row_in shelf.now) shelf.now }
{
    test_length(shelf)?;
    test_row(&shelf[..SOCIETIES])
}

// Whether a clearing with those counts may go on: the shelf's length, then the counts.
pub fn test_clearing(shelf: &[u32], counts: &[u32; 8]) -> Result<(), Refusal>
    ensures { result ≡ test_shelf (row_in counts.now) shelf.now }
{
    test_length(shelf)?;
    test_row(counts)
}

// The span of a society, which has so many slots.
pub fn span_of(shelf: &[u32], society: usize) -> Span
    requires { Ready shelf.now × (society < societies) }
    ensures start { result.start ≡ start_in (row_in shelf.now) society }
    ensures count { result.count ≡ count_in (row_in shelf.now) society }
    ensures end { result.end ≡ result.start + slot_words * result.count }
    ensures inside { (0 < result.count) × (result.end ≤ shelf_words) }
{
    let below = slots_below(&shelf[..SOCIETIES], society);
    let start = SOCIETIES + SLOT_WORDS * below;
    let count = shelf[society] as usize;
    let end = start + SLOT_WORDS * count;
    Span { start, end, count }
}

// The row becomes the counts, their spans zeros, and the rest stays.
pub fn clear_spans(shelf: &mut [u32], counts: &[u32])
    requires { (length shelf.old ≡ shelf_words) × (length counts.now ≡ societies) × (test_row counts.now ≡ passed) }
    ensures { shelf.new ≡ cleared counts.now shelf.old }
{
    let slots = slots_below(counts, SOCIETIES);
    let e = SOCIETIES + SLOT_WORDS * slots;
    shelf[..SOCIETIES].copy_from_slice(counts);
    shelf[SOCIETIES..e].fill(0);
}
