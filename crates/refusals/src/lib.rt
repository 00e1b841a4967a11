// Why a call is refused, and where (document 01's table of numbers, and document 02's): the error of every function that can refuse.
#![tactic(auto)]

ghost use Rattle.std.specs.Prelude.{◌≡◌};
ghost use Rattle.refusals.specs.Refusals.{number_of, place_of};

// One variant a number, with its place where it has one: an offset, a cell, a link, a line, a society, or the length needed.
#[derive(Clone, Copy)]
pub enum Refusal {
    Unreadable(usize),
    NotAllowed(usize),
    FloorAbove(usize),
    TooFewWeights,
    BadTerm(usize),
    BadProposal(usize),
    OutsideBox(usize),
    BrokenLink(usize),
    GapAbove(usize),
    TooThin(usize),
    NoSociety,
    NothingKept,
    NoRoom(usize),
    NotReached(usize),
    BadLine(usize),
    OutOfSequence(usize),
    DeathsAbove(usize),
    NoDivisor,
    NotProposed,
    PassesNotAllowed,
    CountsNotAllowed(usize),
}

// The number that goes over the boundary.
pub fn number_of(r: Refusal) -> u64
    ensures { result ≡ number_of r }
{
    match r {
        Refusal::Unreadable(_) => 1,
        Refusal::NotAllowed(_) => 2,
        Refusal::FloorAbove(_) => 3,
        Refusal::TooFewWeights => 4,
        Refusal::BadTerm(_) => 5,
        Refusal::BadProposal(_) => 6,
        Refusal::OutsideBox(_) => 7,
        Refusal::BrokenLink(_) => 8,
        Refusal::GapAbove(_) => 9,
        Refusal::TooThin(_) => 10,
        Refusal::NoSociety => 11,
        Refusal::NothingKept => 12,
        Refusal::NoRoom(_) => 13,
        Refusal::NotReached(_) => 14,
        Refusal::BadLine(_) => 16,
        Refusal::OutOfSequence(_) => 17,
        Refusal::DeathsAbove(_) => 18,
        Refusal::NoDivisor => 19,
        Refusal::NotProposed => 20,
        Refusal::PassesNotAllowed => 21,
        Refusal::CountsNotAllowed(_) => 22,
    }
}

// The place that goes with it, 0 where a refusal has none.
pub fn place_of(r: Refusal) -> usize
    ensures { result ≡ place_of r }
{
    match r {
        Refusal::Unreadable(at) | Refusal::NotAllowed(at) | Refusal::BadProposal(at) => at,
        Refusal::FloorAbove(cell) | Refusal::OutsideBox(cell) | Refusal::TooThin(cell) => cell,
        Refusal::BadTerm(link) | Refusal::BrokenLink(link) => link,
        Refusal::GapAbove(place) => place,
        Refusal::NoRoom(length) => length,
        Refusal::NotReached(passes) => passes,
        Refusal::BadLine(line) | Refusal::OutOfSequence(line) | Refusal::DeathsAbove(line) => line,
        Refusal::CountsNotAllowed(society) => society,
        Refusal::TooFewWeights
        | Refusal::NoSociety
        | Refusal::NothingKept
        | Refusal::NoDivisor
        | Refusal::NotProposed
        | Refusal::PassesNotAllowed => 0,
    }
}
