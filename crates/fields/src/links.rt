// The links of a job pack: the term count, the terms with their cells rising, and the bound, link after link.
ghost use Rattle.std.specs.Prelude.{◌≡◌, ◌+◌};
ghost use Rattle.fields.specs.Table.{after_cell, after_coefficient, links_from, with_terms};

use crate::limits::has_more;
use crate::{Barred, Field, Step};
use refusals::Refusal;

// The link that a walk stands in: of how many, over how many cells; the terms that are left of it, and the least cell that the next may name (0 after one that does
// not rise).
#[derive(Clone, Copy)]
pub struct Links {
    pub n: u64,
    pub links: u64,
    pub link: u64,
    pub terms: u64,
    pub least: u64,
}

// The first of `links` links, or the end.
pub fn first_link(n: u64, links: u64) -> Field
    ensures { result ≡ links_from n links 0 }
{
    if 0 < links {
        return Field::TermCount(Links {
            n,
            links,
            link: 0,
            terms: 0,
            least: 0,
        });
    }
    Field::End
}

pub fn with_terms(l: Links, x: u64) -> Links
    ensures { result ≡ with_terms l x }
{
    Links {
        terms: x,
        least: 0,
        ..l
    }
}

// Whether the cell rises is only settled once the coefficient was read and tested too.
pub fn after_cell(l: Links, x: u64) -> Step
    ensures { result ≡ after_cell l x }
{
    if l.n <= x {
        return Err(Barred::Unallowed);
    }
    let least = if l.least <= x { x + 1 } else { 0 };
    Ok(Field::Coefficient(Links { least, ..l }))
}

// A coefficient 0, or a cell that does not rise, is 5.
pub fn after_coefficient(l: Links, x: u64) -> Step
    ensures { result ≡ after_coefficient l x }
{
    if x == 0 || l.least == 0 {
        return Err(Barred::Other(Refusal::BadTerm(l.link as usize)));
    }
    if 1 < l.terms {
        let terms = l.terms - 1;
        return Ok(Field::Cell(Links { terms, ..l }));
    }
    Ok(Field::Bound(l))
}

pub fn after_bound(l: Links) -> Field
    ensures { result ≡ links_from l.n l.links (l.link + 1) }
{
    if has_more(l.link, l.links) {
        let link = l.link + 1;
        return Field::TermCount(Links {
            link,
            terms: 0,
            least: 0,
            ..l
        });
    }
    Field::End
}
