// The terms of a gap by their numbers, and their tally: the running total, which is settled once it passes the tolerance, the largest term and its place. It
// knows no words of a job: those are `measure`'s.
#![tactic(auto)]

pub mod term;

ghost use Rattle.std.specs.Prelude.{◌≡◌, negsuc};
ghost use Rattle.tally.specs.Given.{Settles, Tallies, Led};
ghost use Rattle.tally.specs.Tally.{settled_of, tally_of, place_of};

// The settled total of terms, the largest of them, and its place.
#[derive(Clone, Copy)]
pub struct Tally {
    pub total: i64,
    pub largest: i64,
    pub place: usize,
}

// The total with one term more, unless it is past the tolerance already.
pub fn settled(tolerance: i64, total: i64, t: i64) -> i64
    requires { Settles tolerance total t }
    ensures { result ≡ settled_of tolerance total t }
{
    if total <= tolerance {
        return total + t;
    }
    total
}

// The tally of no terms yet, with a start for the total. No term is negative, so the first takes the lead.
pub fn no_terms(start: i64) -> Tally
    ensures { result ≡ record { total = start; largest = negsuc 0; place = 0 } }
{
    Tally {
        total: start,
        largest: -1,
        place: 0,
    }
}

// The tally with one term more, from its place.
pub fn tallied(tolerance: i64, tally: Tally, t: i64, place: usize) -> Tally
    requires { Tallies tolerance tally t }
    ensures { result ≡ tally_of tolerance tally t place }
{
    let total = settled(tolerance, tally.total, t);
    if tally.largest < t {
        return Tally {
            total,
            largest: t,
            place,
        };
    }
    Tally { total, ..tally }
}

// The place of the largest term, by the tally of n cells and that of the links.
pub fn place_of(n: usize, cells: Tally, links: Tally) -> usize
    requires { Led n cells links }
    ensures { result ≡ place_of n cells links }
{
    if cells.largest < links.largest {
        return n + links.place;
    }
    cells.place
}
