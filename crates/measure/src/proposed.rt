// A proposal beside the job that it is for.
ghost use Rattle.jobs.specs.Words.{cells_of, links_of};
ghost use Rattle.jobs.specs.Allowed.{Proposed};
ghost use Rattle.jobs.specs.Unique.{Proposed-prop};

use jobs::words::ReadJob;

// A proposal for a job: its words are n values, and then a multiplier for each link.
#[derive(Clone, Copy)]
pub struct Proposal<'j, 'p> {
    pub job: ReadJob<'j>,
    pub words: &'p [i64],
    pub ghost proposed: { Proposed (cells_of job.words.now) (links_of job.words.now) words.now } by { Proposed-prop (cells_of job.words.now) (links_of job.words.now) words.now },
}
