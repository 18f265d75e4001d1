//! Theorems about certificates. The contract of each function states one.
ghost use Rattle.run_cert.specs.Laws.{NotRefused, OneCertificate, OneRefusal, OpenShorter, PrintedIsRead, ResumedRun};

/// A text denotes at most one certificate.
pub fn one_certificate()
    ensures { OneCertificate }
{}

/// The text of a certificate is rejected only if memory runs out.
#[tactic(auto, using(crate::proofs::Unrefused::unrefused))]
pub fn not_refused()
    ensures { NotRefused }
{}

/// Bytes are rejected in one way only, unless memory runs out: at one line, with one code.
#[tactic(auto, using(crate::proofs::Unrefused::one_refusal))]
pub fn one_refusal()
    ensures { OneRefusal }
{}

/// What is printed for a job that arguments specify is the text of its certificate. So it is read
/// back unchanged.
pub fn printed_is_read()
    ensures { PrintedIsRead }
{}

/// On an extremal instance a run that continues from the replay of a legal log reaches the end of
/// every run. The pops of the log and of the continued run sum to those of that run.
pub fn resumed_run()
    ensures { ResumedRun }
{}

/// On an extremal instance a legal log is shorter than every run to an end if its replay leaves a
/// poppable event.
pub fn open_shorter()
    ensures { OpenShorter }
{}
