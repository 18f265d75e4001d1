//! The top call: command words and bytes in, bytes and a status out.
ghost use Rattle.std.specs.Prelude.{◌≡◌, ◌⊎◌, ◌≤◌, ℕ, List, Some, map, string_bytes, IfOk};
ghost use Rattle.std.specs.Io.KnownBytes.{Appends, IsAtEnd};
ghost use Rattle.pop_model.specs.Faults.{Rose};
ghost use Rattle.pop_words.specs.CommandLines.{AreWords, Asks};
ghost use Rattle.pop_words.specs.declared.job.Job.{Job};
ghost use Rattle.pop_workers.specs.Locks.{MayWork, IsWorkOf};
ghost use Rattle.job_subjects.specs.Refusals.{refusal_line};
ghost use Rattle.job_subjects.specs.declared.refusal.Refusal.TheVariants.{Stopped};
ghost use Rattle.job_subjects.specs.declared.stop.Stop.TheVariants.{ReadFault, OutOfMemory};
ghost use Rattle.told_runs.specs.Outcomes.{HasRun, IsAnswerStatus};
ghost use Rattle.top_call.specs.Answers.{AskForGrid, IsAnswer, IsInput, WasReadWhole};
ghost use Rattle.top_call.specs.TopCall.{IsBreak, Answered, AnsweredUsage, HasReadFault, IsCutShort, IsUsageCutShort};

use crate::answer::answer_to;
use crate::with_lock::run_with;
use confluence_core::Reached;
use job_subjects::{Answer, Stop};
use pop_edge::{Sink, SliceSource, Source};
use pop_watch::Watch;
use pop_workers::{BookWork, Gate, LockBy, work_locked};
use run_makers::Alone;
use std::alloc::{AllocError, Global};
use std::sync::Wait;
use std::thread::Threads;

/// Runs the command of the arguments on the input of the source, and writes the output to the
/// sink. The whole output is made before its first byte is written.
///
/// The status is:
///
/// - 0 for a sample, a batch of samples or extremal events;
/// - 1 if a run ends while an event still occurs;
/// - 2 if the arguments are not a command line;
/// - 3 for an invalid input, a wrong number of clauses or rows that do not fit;
/// - 4 if a limit is exceeded;
/// - 5 if two events clash;
/// - 6 for an empty clause, an isolated vertex, a root that is not a vertex, or a vertex that is
///   cut off from the root. Also for `resample` if the pop of the witness does not exist;
/// - 7 if reading failed;
/// - 8 if writing failed;
/// - 9 if memory ran out;
/// - 10 if the run stopped, or is replayed, and an event is still poppable;
/// - 11 if a record of a certificate's log is not legal.
///
/// Each watcher receives each record of the layered log, in order and once, for `resample`. If
/// `--report` is given, the same holds for `formula`, `orient`, `tree` and `make`. A report that
/// is asked for comes from the first watcher of its kind. If there is no such watcher, it has no
/// line. The watchers are dropped when the call ends.
///
/// The samples of a batch are run side by side on threads of `rt`, each on one, and no watcher is
/// told of them. Where several workers are asked for they run on threads of `rt`, which are joined,
/// and each passes the gate before each of its turns. They claim lock-free words, and then the call
/// waits for no lock; with `--board lock` they share a book under a lock, for which it may wait.
///
/// With `--grow` a run is made in stages: its stacks begin with a lower height and grow up to the
/// one that is asked for. The answer is that of stacks with this height from the start.
///
/// With `--pops` a run is made on one thread, and stops after this number of pops. If an event is
/// poppable then, the output is a certificate (`run_cert`). It contains the command, its stacks,
/// the input as it was read, and the layered log of these pops. Otherwise the answer is that of
/// the run to its end. The source is read completely before its bytes are checked, up to the first
/// byte past the limit of an input.
///
/// `replay` and `resume` read a certificate completely, up to 2^29 bytes, before a byte of it is
/// checked. They check its head, then its input and its stacks as the line of its command does,
/// then its log. Lines of the input count from its first line, and so do those of the log.
///
/// `replay` prints the number of records of a legal log, the cursors after it, and the state of
/// the run there. The state is a sample, exhausted or open, with status 0, 1 or 10. `resume`
/// continues from there to an end, with the workers and the board that are asked for. It prints
/// what the line of the certificate's command prints for the pops of
/// both parts.
pub fn run<S: Source, K: Sink, R: Threads + Wait + Sync, G: Gate + Sync>(
    rt: &R,
    alloc: Global,
    words: &[String],
    watchers: Vec<Box<dyn Watch>>,
    gate: &G,
    source: &mut S,
    sink: &mut K,
) -> u8
    // An answer is that of the words, the watchers and the text: of an extremal formula, an
    // orientation or a tree, the end of the run on one thread. That run always pops the first
    // poppable event, so the number of workers and the board make no difference. What is asked for
    // of its layered log follows.
    //
    // - The tree of a grid is answered in the same way, and the grid is made for every source.
    // - For `resample`, it is a legal layered log that leads to an end, with that end.
    // - For `rounds`, it is the one result of the run by rounds.
    // - If a number of samples is asked for, it has the end of each, on the stacks of that sample.
    // - If a run may stop after a number of pops, it is such an end with at most this many pops.
    //   Or it is the certificate of a legal log with this many, after which an event is poppable.
    // - For `replay`, it is the replay of the certificate's log.
    // - For `resume`, it is that of the command line of the certificate, by a run with a log that
    //   begins with the certificate's log.
    ensures answer { (text : List ℕ)
        → IsInput (map string_bytes words.now) (S.left source.old) text → (IsBreak result → ⊥)
        → Answered (map string_bytes words.now) (map (λ b. (kind b, state b)) watchers.items) text
        (K.holds sink.old) (K.holds sink.new) result }
    ensures statuses { result ≤ 11 }

    // Invalid arguments are reported for every source, and nothing else is written then.
    ensures usage { result ≡ 2
        → AnsweredUsage (map string_bytes words.now) (K.holds sink.old) (K.holds sink.new) }
    ensures only_usage { (AreWords (map string_bytes words.now) → ⊥)
        → (result ≡ 2) ⊎ ((result ≡ 8) ⊎ (result ≡ 9)) }

    // The source is left as it was if the arguments are invalid, and if a grid is made.
    ensures unread { (AreWords (map string_bytes words.now) → ⊥)
        ⊎ AskForGrid (map string_bytes words.now) → source.new ≡ source.old }

    ensures read_fault { result ≡ 7
        → HasReadFault (map string_bytes words.now) (S.left source.old) (S.left source.new)
        (S.faults source.old) (S.faults source.new) }
    ensures told_read_fault { result ≡ 7
        → Appends (K.holds sink.old) (K.holds sink.new) (refusal_line (Stopped ReadFault)) }
    ensures write_fault { result ≡ 8 → Rose (K.faults sink.old) (K.faults sink.new) }
    ensures cut { (text : List ℕ)
        → IsInput (map string_bytes words.now) (S.left source.old) text → result ≡ 8
        → IsCutShort (map string_bytes words.now) (map (λ b. (kind b, state b)) watchers.items) text
        (HasReadFault (map string_bytes words.now) (S.left source.old) (S.left source.new)
        (S.faults source.old) (S.faults source.new))
        (K.holds sink.old) (K.holds sink.new) }
    ensures cut_usage { (AreWords (map string_bytes words.now) → ⊥) → result ≡ 8
        → IsUsageCutShort (map string_bytes words.now) (K.holds sink.old) (K.holds sink.new) }
    ensures memory { result ≡ 9
        → Appends (K.holds sink.old) (K.holds sink.new) (refusal_line (Stopped OutOfMemory)) }

    // If the answer is a sample, a verdict, an exhausted end or a certificate, a source that is
    // read was read to its end.
    ensures whole { HasRun result
        → (AskForGrid (map string_bytes words.now) → ⊥) → IsAtEnd (S.left source.new) }

    // A certificate, and the input of a run that may be stopped, is read completely before a byte
    // of it is checked. It is read to its end, or to the first byte past the limit. So an error of
    // reading takes precedence over any error in the bytes that were read.
    ensures read_whole { (job : Job) → Asks (map string_bytes words.now) job
        → (IsBreak result → ⊥)
        → WasReadWhole job.pops job.command (S.left source.old) (S.left source.new) }
{
    let work = |work: BookWork| -> Result<Reached, AllocError>
        requires { MayWork work }
        ensures { IfOk result (IsWorkOf work.entry) }
    { work_locked(rt, gate, work) };
    let lock = LockBy { work: &work };
    run_with(rt, alloc, words, watchers, gate, Some(&lock), source, sink)
}

/// The answer to the arguments and the bytes of an input. It is the status that `run` returns and
/// the output that it writes, if the source has these bytes and no sink fails. The error is
/// returned only if memory ran out. If a grid is made, the bytes are not used.
///
/// The calling thread does all of the work. For every requested crew it makes the run alone,
/// passes no gate and starts no thread; an answer does not show how many workers there were. With
/// `--grow` the run is made at the last height at once. The watchers receive what they receive
/// from `run`, and are dropped when the call ends.
pub fn answer_alone(
    alloc: Global,
    words: &[String],
    watchers: Vec<Box<dyn Watch>>,
    text: &[u8],
) -> Result<Answer, AllocError>
    ensures answer { (input : List ℕ) → IsInput (map string_bytes words.now) (Some text.now) input
        → IfOk result (λ a. IsAnswer (map string_bytes words.now)
        (map (λ b. (kind b, state b)) watchers.items) input a.status a.text.items) }
    ensures status { IfOk result (λ a. IsAnswerStatus a.status) }
{
    let mut source = SliceSource::new(text);
    match answer_to(&Alone, alloc, words, watchers, &mut source) {
        Ok(answer) => Ok(answer),
        Err(Stop::OutOfMemory) => Err(AllocError),
        // A read of borrowed bytes does not fail.
        Err(Stop::ReadFault) => unreachable!(),
    }
}
