//! Theorems about the grammar of arguments, which show that it is unambiguous. The contract of
//! each function states one.
ghost use Rattle.pop_words.specs.Laws.{OneJob, OneBadPlace, JobOrBadPlace, HeightInRange, GrowInRange, CountInRange, PopsInRange, GivenAlone, PausedAlone, WorkersInRange, RootInRange, SizeInRange};

/// A list of arguments specifies at most one job.
pub fn one_job()
    ensures { OneJob }
{}

/// A list of arguments has at most one first invalid place. By the definition of that place, it
/// has none if it specifies a job.
pub fn one_bad_place()
    ensures { OneBadPlace }
{}

/// A list of arguments specifies a job or has an invalid place.
pub fn job_or_bad_place()
    ensures { JobOrBadPlace }
{}

/// The height of a job is from 1 to 2^31 - 1.
pub fn height_in_range()
    ensures { HeightInRange }
{}

/// The last height of a job, if there is one, is from 1 to 2^31 - 1.
pub fn grow_in_range()
    ensures { GrowInRange }
{}

/// The number of samples of a job, if there is one, is from 1 to 65536.
pub fn count_in_range()
    ensures { CountInRange }
{}

/// The number of pops of a job, if there is one, is from 1 to 2^32 - 1.
pub fn pops_in_range()
    ensures { PopsInRange }
{}

/// If rows are given, the job has no last height and no number of samples.
pub fn given_alone()
    ensures { GivenAlone }
{}

/// A job with a number of pops has no other options than its stacks, their height and a root.
pub fn paused_alone()
    ensures { PausedAlone }
{}

/// The number of threads of a job is from 1 to 64.
pub fn workers_in_range()
    ensures { WorkersInRange }
{}

/// The root of a job is from 1 to 2^32 - 1.
pub fn root_in_range()
    ensures { RootInRange }
{}

/// The size of a job is at most 2048, and at least 1 if a grid is made.
pub fn size_in_range()
    ensures { SizeInRange }
{}
