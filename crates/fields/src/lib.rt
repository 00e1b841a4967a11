// The fields of a pack, one after another (document 01, "Packs", "Numbers allowed", "Order"): what each number may be, what comes after it, and
// which refusal it can bring. The reader and the writer both walk along this table, so that they cannot disagree.
#![tactic(auto)]

pub mod cells;
pub mod limits;
pub mod links;
pub mod proposal;
pub mod shape;

ghost use Rattle.std.specs.Prelude.{◌≡◌, ◌-◌, Ok};
ghost use Rattle.fields.specs.declared.Field.TheVariants.{Tolerance};
ghost use Rattle.fields.specs.Table.{within, within_signed, rule, after_coefficient, step_of, signed_at, end_at};

use crate::cells::{Cells, after_ceiling, with_weight};
use crate::limits::is_within;
use crate::links::{Links, after_bound, after_cell, after_coefficient, first_link, with_terms};
use crate::proposal::{after_multiplier, after_value};
use crate::shape::{after_across, after_columns, after_down, after_order};
use refusals::Refusal;

// The field whose number comes next, with what the numbers before it fix.
#[derive(Clone, Copy)]
pub enum Field {
    Society,
    Job,
    Count,
    Order(u64),
    Rows(u64),
    Columns(u64, u64),
    OrderDown(Cells, u64),
    OrderAcross(Cells),
    SecondConstant(Cells),
    Constant(Cells, u64),
    Tolerance(Cells),
    Crude(Cells),
    Weight(Cells),
    Floor(Cells),
    Ceiling(Cells, u64),
    LinkCount(u64),
    TermCount(Links),
    Cell(Links),
    Coefficient(Links),
    Bound(Links),
    Value(u64, u64),
    Multiplier(u64),
    End,
}

// Why a number stops the walk: it is not allowed where it stands, or the table has another refusal for what it tells.
#[derive(Clone, Copy)]
pub enum Barred {
    Unallowed,
    Other(Refusal),
}

// What a number does: another field follows, or it is barred.
pub type Step = Result<Field, Barred>;

fn ruled(allowed: bool, s: Step) -> Step
    ensures { result ≡ rule allowed s }
{
    if allowed { s } else { Err(Barred::Unallowed) }
}

fn next_if(allowed: bool, f: Field) -> Step
    ensures { result ≡ rule allowed (Ok f) }
{
    ruled(allowed, Ok(f))
}

// k, after a second constant.
fn after_constant(c: Cells, second: u64, x: u64) -> Step
    ensures { result ≡ rule (within 1 (1000 - second) x) (Ok (Tolerance c)) }
{
    next_if(
        is_within(1, limits::CONSTANT.saturating_sub(second), x),
        Field::Tolerance(c),
    )
}

// A coefficient in its stored form.
fn after_stored(l: Links, x: u64) -> Step
    ensures { result ≡ rule (within_signed 10 x) (after_coefficient l x) }
{
    ruled(
        is_within(0, 2 * limits::COEFFICIENT, x),
        after_coefficient(l, x),
    )
}

// Whether a field's numbers are signed ones in their stored form.
pub fn is_signed(f: Field) -> bool
    ensures { result ≡ signed_at f }
{
    matches!(f, Field::Coefficient(_) | Field::Bound(_))
}

// Whether the pack is whole.
pub fn is_end(f: Field) -> bool
    ensures { result ≡ end_at f }
{
    matches!(f, Field::End)
}

// What the number x does at a field.
pub fn after(f: Field, x: u64) -> Step
    ensures { result ≡ step_of f x }
{
    match f {
        Field::Society => next_if(is_within(0, limits::SOCIETY, x), Field::Job),
        Field::Job => next_if(is_within(0, limits::JOB, x), Field::Count),
        Field::Count => next_if(is_within(2, limits::CELLS, x), Field::Order(x)),
        Field::Order(n) => after_order(n, x),
        Field::Rows(n) => next_if(2 <= x, Field::Columns(n, x)),
        Field::Columns(n, rows) => after_columns(n, rows, x),
        Field::OrderDown(c, rows) => after_down(c, rows, x),
        Field::OrderAcross(c) => after_across(c, x),
        Field::SecondConstant(c) => next_if(
            is_within(1, limits::SECOND_CONSTANT, x),
            Field::Constant(c, x),
        ),
        Field::Constant(c, second) => after_constant(c, second, x),
        Field::Tolerance(c) => next_if(is_within(0, limits::TOLERANCE, x), Field::Crude(c)),
        Field::Crude(c) => next_if(is_within(0, limits::RATE, x), Field::Weight(c)),
        Field::Weight(c) => next_if(
            is_within(0, limits::WEIGHT, x),
            Field::Floor(with_weight(c, x)),
        ),
        Field::Floor(c) => next_if(is_within(0, limits::RATE, x), Field::Ceiling(c, x)),
        Field::Ceiling(c, lo) => ruled(is_within(0, limits::RATE, x), after_ceiling(c, lo, x)),
        Field::LinkCount(n) => next_if(is_within(0, limits::LINKS, x), first_link(n, x)),
        Field::TermCount(l) => next_if(
            is_within(1, limits::TERMS, x),
            Field::Cell(with_terms(l, x)),
        ),
        Field::Cell(l) => after_cell(l, x),
        Field::Coefficient(l) => after_stored(l, x),
        Field::Bound(l) => next_if(is_within(0, 2 * limits::BOUND, x), after_bound(l)),
        Field::Value(n, links) => next_if(is_within(0, limits::RATE, x), after_value(n, links)),
        Field::Multiplier(n) => next_if(is_within(0, limits::MULTIPLIER, x), after_multiplier(n)),
        Field::End => Err(Barred::Unallowed),
    }
}
