// Cell terms, with what supplied them, and link terms (document 01, "Loss and gap"; W-202), by their numbers.
ghost use Rattle.std.specs.Prelude.{◌≡◌, leb, nat_abs, ◌*ℤ◌, ◌-ℤ◌};
ghost use Rattle.certificate.specs.Terms.{box_term, square_term, square_counts};
ghost use Rattle.tally.specs.Supplied.{limit, lesser_of, supplied, amount_of};
ghost use Rattle.tally.specs.Given.{Boxed, Squares, CellNumbers, LinkNumbers, Amount};

// A cell term, and whether the box or the weight supplied it.
#[derive(Clone, Copy)]
pub enum Supplied {
    ByBox(i64),
    ByWeight(i64),
}

// Beyond it, on either side of 0, a residual's square is not taken.
const LIMIT: i64 = 2000000000;

// r(v - lo) if r > 0, -r(hi - v) if r < 0, 0 if r = 0.
fn box_term(r: i64, lo: i64, hi: i64, v: i64) -> i64
    requires { Boxed r lo hi v }
    ensures { result ≡ box_term r lo hi v }
{
    if 0 < r {
        return r * (v - lo);
    }
    if r < 0 {
        return (0 - r) * (hi - v);
    }
    0
}

// r² / (4w) rounded up.
fn square_term(w: i64, r: i64) -> i64
    requires { Squares w r }
    ensures { result ≡ square_term w r }
{
    let m = 4 * w;
    (r * r + (m - 1)) / m
}

// Whether r lies within the limit.
fn is_near(r: i64) -> bool
    ensures { result ≡ leb (nat_abs r) limit }
{
    -LIMIT <= r && r <= LIMIT
}

// Whether the square counts beside the box: w is not 0, and r is near.
fn square_counts(w: i64, r: i64) -> bool
    ensures { result ≡ square_counts limit w r }
{
    0 < w && is_near(r)
}

// The smaller of the two, the box term if they tie.
fn lesser_of(boxed: i64, square: i64) -> Supplied
    ensures { result ≡ lesser_of boxed square }
{
    if boxed <= square {
        return Supplied::ByBox(boxed);
    }
    Supplied::ByWeight(square)
}

// The cell term: the box term, or the square term where that counts and is smaller. No square is below 0, so it is not worked out beside a box term that
// is not above 0.
pub fn cell_term(w: i64, r: i64, lo: i64, hi: i64, v: i64) -> Supplied
    requires { CellNumbers w r lo hi v }
    ensures { result ≡ supplied w r lo hi v }
{
    let by_box = box_term(r, lo, hi, v);
    if by_box <= 0 {
        return Supplied::ByBox(by_box);
    }
    if square_counts(w, r) {
        return lesser_of(by_box, square_term(w, r));
    }
    Supplied::ByBox(by_box)
}

// The term, whichever supplied it.
pub fn amount_of(t: Supplied) -> i64
    requires { Amount t }
    ensures { result ≡ amount_of t }
{
    match t {
        Supplied::ByBox(a) => a,
        Supplied::ByWeight(a) => a,
    }
}

// The link term: the multiplier times the room that the link's sum leaves.
pub fn link_term(y: i64, b: i64, sum: i64) -> i64
    requires { LinkNumbers y b sum }
    ensures { result ≡ y *ℤ (b -ℤ sum) }
{
    y * (b - sum)
}
