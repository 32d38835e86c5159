//! Laws of the generated job.
ghost use Rattle.qpu_gen.specs.Reads.{GeneratedJobsAreRead};

/// A law: the text of the generated job of each number is read as what that job asks for.
#[tactic(auto, using(crate::proofs::Reading::generated_read))]
pub fn generated_jobs_are_read()
    ensures { GeneratedJobsAreRead }
{}
