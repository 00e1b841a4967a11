// A link's own numbers: its coefficients as a right side, and its sum over the numbers of its cells.
ghost use Rattle.std.specs.Prelude.{◌≡◌, ◌+◌, ◌*◌, ◌≤◌, ◌<◌};
ghost use Rattle.std.specs.Float.{binary64};
ghost use Rattle.std.specs.Float.Ieee.{of_int};
ghost use Rattle.jobs.specs.Words.{word_at, count_at, cells_of};
ghost use Rattle.measure.specs.Given.{LinkAt};
ghost use Rattle.passes.specs.Hildreth.{right_for, sum_over};
ghost use Rattle.passes.specs.OnWords.{link_at, LinkAt-prop};

use factor::CELLS;
use house::band::cast;
use jobs::words::count_at;
use measure::links::bound_of;

// A link among the words of a job, by the place where it starts.
#[derive(Clone, Copy)]
pub struct Link<'a> {
    pub words: &'a [i64],
    pub start: usize,
    pub ghost at: { LinkAt words.now start } by { LinkAt-prop words.now start },
}

impl<'a> Link<'a> {
    // The coefficient of the term m, cast.
    fn coefficient(self, m: usize) -> f64
        requires { m < count_at self.words.now self.start }
        ensures { result ≡ of_int binary64 (word_at self.entry.words.now (self.entry.start + 2 + 2 * m)) }
    {
        let at = self.start + 2 + 2 * m;
        cast(self.words[at])
    }

    // The cell that the term m names.
    fn cell(self, m: usize) -> usize
        requires { m < count_at self.words.now self.start }
        ensures { result ≡ count_at self.entry.words.now (self.entry.start + 1 + 2 * m) }
    {
        let at = self.start + 1 + 2 * m;
        count_at(self.words, at)
    }

    // The bound, cast.
    pub fn bound(self) -> f64
        ensures { result ≡ of_int binary64 (link_at self.entry.words.now self.entry.start).bound }
    {
        let b = bound_of(self.words, self.start);
        cast(b)
    }

    // The coefficients as a right side.
    pub fn right_for(self) -> [f64; CELLS]
        requires { cells_of self.words.now ≤ 120 }
        ensures { result ≡ right_for (link_at self.entry.words.now self.entry.start) }
    {
        let t = count_at(self.words, self.start);
        let mut made = [0.0; CELLS];
        for m in 0..t {
            let cell = self.cell(m);
            let a = self.coefficient(m);
            made[cell] = a;
        }
        made
    }

    // The coefficients times the numbers of the cells.
    pub fn sum_over(self, xs: &[f64; CELLS]) -> f64
        requires { cells_of self.words.now ≤ 120 }
        ensures { result ≡ sum_over (link_at self.entry.words.now self.entry.start) xs.now }
    {
        let t = count_at(self.words, self.start);
        let mut total = 0.0;
        for m in 0..t {
            let cell = self.cell(m);
            let a = self.coefficient(m);
            total = total + a * xs[cell];
        }
        total
    }
}
