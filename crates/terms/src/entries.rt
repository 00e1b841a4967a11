// The words of one place.
ghost use Rattle.std.specs.Prelude.{◌≡◌, [], ◌∷◌, ◌+◌, ◌*◌, ◌≤◌, length};
ghost use Rattle.std.proofs.lemmas.List.Edits.{sets};
ghost use Rattle.tally.specs.Supplied.{amount_of};
ghost use Rattle.tally.specs.Given.{Amount};
ghost use Rattle.terms.specs.Listing.{side_of};

use tally::term::Supplied;

// Term, residual and side.
pub const PLACE_WORDS: usize = 3;

const BY_BOX: i64 = 0;

const BY_WEIGHT: i64 = 1;

pub const BY_LINK: i64 = 2;

// Puts the three words of a place.
pub fn put_entry(out: &mut [i64], place: usize, term: i64, r: i64, side: i64)
    requires { 3 * place + 3 ≤ length out.old }
    ensures { out.new ≡ sets out.old (3 * place) (term ∷ r ∷ side ∷ []) }
{
    let at = PLACE_WORDS * place;
    out[at] = term;
    let next = at + 1;
    out[next] = r;
    let last = at + 2;
    out[last] = side;
}

// Puts the words of a cell, whose residual is r.
pub fn put_cell(out: &mut [i64], place: usize, r: i64, t: Supplied)
    requires { Amount t × (3 * place + 3 ≤ length out.old) }
    ensures { out.new ≡ sets out.old (3 * place) (amount_of t ∷ r ∷ side_of t ∷ []) }
{
    match t {
        Supplied::ByBox(a) => put_entry(out, place, a, r, BY_BOX),
        Supplied::ByWeight(a) => put_entry(out, place, a, r, BY_WEIGHT),
    }
}
