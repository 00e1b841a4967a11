// The one walk along the table of `fields`. A reader's numbers come from the bytes of a pack, the writer's from words: both take the same steps, so
// that the writer refuses as reading its pack would.
ghost use Rattle.std.specs.Prelude.{◌≡◌, true, ◌+◌, ◌*◌, ◌^◌, ◌≤◌, ◌<◌};
ghost use Rattle.fields.specs.Table.{step_of};
ghost use Rattle.packs.specs.Reading.{settled, Hands};
ghost use Rattle.packs.specs.Walking.{writes, bytes_in, words_in, in_groups, in_words, Small, next_of, left_of, kept_of, walk_move, walk_of};

use crate::words::{raw_of, word_of};
use fields::{Barred, Field};
use numbers::lent::store;
use numbers::plain::Number;
use refusals::Refusal;

// Where the numbers of a walk come from: a reader's from the bytes of a pack, the writer's from words.
#[derive(Clone, Copy)]
pub enum Source<'a> {
    Pack(&'a [u8]),
    Words(&'a [i64]),
}

// A number taken: the field that follows, the word to be kept and the offset after it.
#[derive(Clone, Copy)]
pub struct Taken {
    pub field: Field,
    pub word: i64,
    pub next: usize,
}

// The first number that nine groups do not hold.
const TOO_LARGE: u64 = 9223372036854775808;

// The number of a word that stands at the offset `at`.
fn in_groups(raw: Option<u64>, at: usize) -> Result<Number, Refusal>
    requires { at + 10 < 2 ^ 64 }
    ensures { result ≡ in_groups at raw }
{
    let value = raw.ok_or(Refusal::NotAllowed(at))?;
    if TOO_LARGE <= value {
        return Err(Refusal::NotAllowed(at));
    }
    let size = numbers::plain::size(value);
    let next = at + size;
    Ok(Number { value, next })
}

// The number of the word k at its field.
fn in_words(words: &[i64], k: usize, at: usize, f: Field) -> Result<Number, Refusal>
    requires { at ≤ 10 * k }
    ensures { (result ≡ in_words words.now k at f) × Small result }
{
    if k < words.len() {
        let raw = raw_of(f, words[k]);
        return in_groups(raw, at);
    }
    Err(Refusal::Unreadable(at))
}

// The number that comes next.
fn next_of(source: Source, k: usize, at: usize, f: Field) -> Result<Number, Refusal>
    requires { writes source ≡ true → at ≤ 10 * k }
    ensures { (result ≡ next_of (writes source.entry) (bytes_in source.entry) (words_in source.entry) k at f) × Small result }
{
    match source {
        Source::Pack(pack) => numbers::plain::number_at(pack, at).ok_or(Refusal::Unreadable(at)),
        Source::Words(words) => in_words(words, k, at, f),
    }
}

// Whether anything is left where the table ends.
fn has_left(source: Source, k: usize, at: usize) -> bool
    ensures { result ≡ left_of (writes source.entry) (bytes_in source.entry) (words_in source.entry) k at }
{
    match source {
        Source::Pack(pack) => at < pack.len(),
        Source::Words(words) => k < words.len(),
    }
}

// What a reader keeps of a number is the word that it is at its field; what the writer keeps is the number itself.
fn kept_of(source: Source, f: Field, x: u64) -> i64
    requires { x < 2 ^ 63 }
    ensures { result ≡ kept_of (writes source.entry) f x }
{
    match source {
        Source::Pack(_) => word_of(f, x),
        Source::Words(_) => numbers::zigzag::plus(x),
    }
}

// The number n, which stands at `at`, tested at its field.
fn tested(source: Source, f: Field, n: Number, at: usize) -> Result<Option<Taken>, Refusal>
    requires { n.value < 2 ^ 63 }
    ensures { result ≡ settled (kept_of (writes source.entry) f n.value) at n.next (step_of f n.value) }
{
    let word = kept_of(source, f, n.value);
    let next = n.next;
    match fields::after(f, n.value) {
        Ok(field) => Ok(Some(Taken { field, word, next })),
        Err(Barred::Unallowed) => Err(Refusal::NotAllowed(at)),
        Err(Barred::Other(r)) => Err(r),
    }
}

// What stands next in a walk: a number taken, or none where the table ends.
fn move_at(source: Source, k: usize, at: usize, f: Field) -> Result<Option<Taken>, Refusal>
    requires { writes source ≡ true → at ≤ 10 * k }
    ensures { result ≡ walk_move (writes source.entry) (bytes_in source.entry) (words_in source.entry) k at f }
{
    if fields::is_end(f) {
        if has_left(source, k, at) {
            return Err(Refusal::Unreadable(at));
        }
        return Ok(None);
    }
    let n = next_of(source, k, at, f)?;
    tested(source, f, n, at)
}

// Walks from the field `first` on. What is kept of each number goes into `kept` as far as there is room, also before a refusal: lend it room of your own.
// Answers the count of words.
pub fn walk(source: Source, first: Field, kept: &mut [i64]) -> Result<usize, Refusal>
    ensures { Hands (walk_of (writes source.entry) (bytes_in source.entry) (words_in source.entry) first) kept.old result kept.new }
{
    let mut field = first;
    let mut at: usize = 0;
    let mut k: usize = 0;
    while let Some(t) = move_at(source, k, at, field)? {
        store(kept, k, t.word);
        k += 1;
        at = t.next;
        field = t.field;
    }
    Ok(k)
}
