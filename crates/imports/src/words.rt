// The words of the job that a list makes.
ghost use Rattle.std.specs.Prelude.{◌≡◌, ◌+◌, ◌*◌, ◌≤◌, ◌<◌, length, take};
ghost use Rattle.std.proofs.lemmas.List.Edits.{sets};
ghost use Rattle.imports.specs.Imports.{word_upto, cell_of, cells_of, head_of, words_of};

use crate::Given;
use crate::rates::{crude_of, weight_of};
use fields::limits::ORDER;
use numbers::zigzag::plus;

const LARGEST_WORD: u64 = 9223372036854775807;

// A number of the caller's as a word, or one that no field allows.
fn word_upto(most: u64, x: u64) -> i64
    requires { most ≤ 9223372036854775807 }
    ensures { result ≡ word_upto most x }
{
    if x <= most {
        return plus(x);
    }
    -1
}

// The words before the first cell.
fn head_of(g: Given, n: usize) -> [i64; 6]
    requires { n ≤ 120 }
    ensures { result ≡ head_of g n }
{
    [
        word_upto(LARGEST_WORD, g.society),
        word_upto(LARGEST_WORD, g.job),
        plus(n as u64),
        word_upto(ORDER, g.order),
        word_upto(LARGEST_WORD, g.constant),
        word_upto(LARGEST_WORD, g.tolerance),
    ]
}

// The words of one cell.
fn cell_of(g: Given, exposure: u32, deaths: u32) -> [i64; 4]
    requires { 0 < g.divisor }
    ensures { result ≡ cell_of g exposure deaths }
{
    [
        plus(crude_of(exposure, deaths)),
        plus(weight_of(g.divisor, exposure)),
        word_upto(LARGEST_WORD, g.floor),
        word_upto(LARGEST_WORD, g.ceiling),
    ]
}

// The words of the first n cells.
fn put_cells(g: Given, n: usize, exposures: &[u32], deaths: &[u32], words: &mut [i64])
    requires { (0 < g.divisor) × ((n ≤ 120) × ((n ≤ length exposures.now) × ((n ≤ length deaths.now) × (6 + 4 * n ≤ length words.old)))) }
    ensures { words.new ≡ sets words.old 6 (cells_of g (take n exposures.now) (take n deaths.now)) }
{
    for i in 0..n {
        let at = 6 + 4 * i;
        words[at..at + 4].copy_from_slice(&cell_of(g, exposures[i], deaths[i]));
    }
}

// All words of the job of the first n cells: how many there are.
pub fn put_job(g: Given, n: usize, exposures: &[u32], deaths: &[u32], words: &mut [i64]) -> usize
    requires { (0 < g.divisor) × ((n ≤ 120) × ((n ≤ length exposures.now) × ((n ≤ length deaths.now) × (7 + 4 * n ≤ length words.old)))) }
    ensures { (result ≡ 7 + 4 * n) × (words.new ≡ sets words.old 0 (words_of g (take n exposures.now) (take n deaths.now))) }
{
    words[..6].copy_from_slice(&head_of(g, n));
    put_cells(g, n, exposures, deaths, words);
    let links = 6 + 4 * n;
    words[links] = 0;
    links + 1
}
