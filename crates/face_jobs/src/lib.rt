// A job of a sentence (02, Wish 5): which tree to walk, with what limit, from which answer byte on, and room for how the walk ends. `walk_job` fills one. It takes the job by
// value and hands it back, so that the loop over the lent jobs (`larsavim`) has nothing to do but call it.
#![tactic(auto)]

ghost use Rattle.std.specs.Prelude.{◌≡◌};
ghost use Rattle.face_jobs.specs.Done.{job_done};

use face_model::{Ended, walk_said};

// Six numbers, 48 bytes in C. C reads this struct (larsavim.h).
#[repr(C)]
#[derive(Clone, Copy)]
pub struct Job {
    pub tree: u64,
    pub limit: u64,
    pub start: u64,
    pub number: u64,
    pub pdf: u64,
    pub asked: u64,
}

// One job: 24 for a start past the answers, else the walk over the answers from there to their end.
pub fn walk_job(trees: &[u64], records: &[u64], answers: &[u8], job: Job) -> Job
    ensures { result ≡ job_done trees.now records.now answers.now job }
{
    let mut ended = Ended {
        number: 24,
        pdf: 0,
        asked: 0,
    };
    if job.start <= answers.len() as u64 {
        let from = job.start as usize;
        ended = walk_said(trees, records, job.tree, &answers[from..], job.limit);
    }
    Job {
        tree: job.tree,
        limit: job.limit,
        start: job.start,
        number: ended.number,
        pdf: ended.pdf,
        asked: ended.asked,
    }
}
