// Searches in a span of slots: the lowest that has a job, the lowest that is empty.
ghost use Rattle.std.specs.Prelude.{◌≡◌, ◌*◌, ◌<◌, length, drop};
ghost use Rattle.slots.specs.Slots.{slot_words, is_full, has_job, is_empty, lowest, slot_for};

use crate::{CELLS, SLOT_WORDS};

// The words of so many slots.
#[derive(Clone, Copy)]
pub struct Slots<'a> {
    pub span: &'a [u32],
    pub count: usize,
    pub ghost whole: { length span.now ≡ slot_words * count },
}

impl Slots<'_> {
    // Slot p holds a table.
    fn full_at(self, p: usize) -> bool
        requires { p < self.count }
        ensures { result ≡ is_full (drop (slot_words * p) self.entry.span.now) }
    {
        (2..=CELLS).contains(&self.span[SLOT_WORDS * p])
    }

    // It holds a table of that job.
    fn job_at(self, p: usize, job: u32) -> bool
        requires { p < self.count }
        ensures { result ≡ has_job job (drop (slot_words * p) self.entry.span.now) }
    {
        self.full_at(p) && self.span[SLOT_WORDS * p + 1] == job
    }

    // The lowest slot that has the job.
    pub fn find_job(self, job: u32) -> Option<usize>
        ensures { result ≡ lowest (has_job job) slot_words self.entry.count self.entry.span.now }
    {
        (0..self.count).position(move |p| self.job_at(p, job))
    }

    // The lowest empty slot.
    fn find_empty(self) -> Option<usize>
        ensures { result ≡ lowest is_empty slot_words self.entry.count self.entry.span.now }
    {
        (0..self.count).position(move |p| !self.full_at(p))
    }

    // Where a table of that job goes. A match: with an or_else, whose closure would hold the slots, the proof did not close.
    pub fn slot_for(self, job: u32) -> Option<usize>
        ensures { result ≡ slot_for slot_words self.entry.count job self.entry.span.now }
    {
        match self.find_job(job) {
            Some(p) => Some(p),
            None => self.find_empty(),
        }
    }
}
