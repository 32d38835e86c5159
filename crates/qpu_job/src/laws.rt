//! Laws of what jobs are.

ghost use Rattle.qpu_job.specs.Grammar.{ReadsJobsAlone, ReadsEveryJob};
ghost use Rattle.qpu_job.specs.MayOpen.{ReadJobsKeep, ReadJobsMayOpen};
ghost use Rattle.qpu_job.specs.OneMachine.{CleanJobsAreAccepted, OneRefusal};

/// The texts that are read as jobs are exactly those of the grammar, each with the one plan that it
/// asks for.
pub fn reads_the_grammar()
    ensures alone { ReadsJobsAlone }
    ensures every { ReadsEveryJob }
{}

/// A law: a job whose programs are assembled, with all words in the profile and no path that breaks a
/// hazard rule, is refused for none of its faults.
#[tactic(auto, using(crate::proofs::OneMachineLaw::clean_jobs))]
pub fn clean_jobs_are_accepted()
    ensures { CleanJobsAreAccepted }
{}

/// A law: of one job one refusal at most is due, want of memory aside, so what `make_machine` tells
/// leaves no choice.
pub fn one_refusal()
    ensures { OneRefusal }
{}

/// A law: what is read as a job keeps the bounds on its parts, and where its programs are assembled
/// and clean its machine may open: starts of different processors and of programs that are there, no
/// path of which breaks a rule.
pub fn read_jobs_may_open()
    ensures keeps { ReadJobsKeep }
    ensures opens { ReadJobsMayOpen }
{}
