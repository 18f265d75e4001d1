//! The top call with the lock that its workers may share.
ghost use Rattle.std.specs.Prelude.{◌≡◌, ◌≢◌, ◌⊎◌, ◌≤◌, ℕ, List, map, string_bytes, IfOk, IfSome};
ghost use Rattle.std.specs.Io.KnownBytes.{Appends, IsAtEnd};
ghost use Rattle.pop_model.specs.Faults.{Rose};
ghost use Rattle.pop_edge.specs.Devices.{AppendsFront};
ghost use Rattle.pop_words.specs.CommandLines.{AreWords, Asks};
ghost use Rattle.pop_words.specs.declared.job.Job.{Job};
ghost use Rattle.run_makers.specs.Makers.{MayGrow, IsRunInStages, MayGoOn, IsBroughtOn};
ghost use Rattle.job_subjects.specs.Refusals.{refusal_line};
ghost use Rattle.job_subjects.specs.declared.refusal.Refusal.TheVariants.{Stopped};
ghost use Rattle.job_subjects.specs.declared.stop.Stop.TheVariants.{ReadFault, OutOfMemory};
ghost use Rattle.told_runs.specs.Outcomes.{HasRun};
ghost use Rattle.top_call.specs.Answers.{AskForGrid, IsInput, WasReadWhole};
ghost use Rattle.top_call.specs.TopCall.{IsBreak, Answered, AnsweredUsage, HasReadFault, IsCutShort, IsUsageCutShort};

use crate::answer::answer_to;
use job_subjects::Stop;
use pop_edge::{Sink, Source, put_all};
use pop_instance::Instance;
use pop_watch::Watch;
use pop_workers::{Gate, Lock, Outcome};
use run_makers::{By, Stages, Stretch, lock_of, makers_of, run_in_stages};
use std::alloc::{AllocError, Global};
use std::thread::Threads;

// Writes the output. Returns the status, or 8 if the sink failed.
fn deliver<K: Sink>(sink: &mut K, text: &[u8], status: u8) -> u8
    requires { status ≢ 8 }
    ensures status { (result ≡ status) ⊎ (result ≡ 8) }
    ensures held { result ≢ 8 → Appends (K.holds sink.old) (K.holds sink.new) text.now }
    ensures cut { result ≡ 8 → AppendsFront (K.holds sink.old) (K.holds sink.new) text.now }
    ensures fault { result ≡ 8 → Rose (K.faults sink.old) (K.faults sink.new) }
{
    match put_all(sink, text) {
        Ok(()) => status,
        Err(_) => 8,
    }
}

/// Like `run`, by workers that share a book under the given lock if the arguments ask for it with
/// `--board lock`. Without a lock they claim words. The answer does not show the board.
///
/// The call needs no runtime that may wait. So it returns without a lock, and also with one that
/// does not wait.
pub fn run_with<S: Source, K: Sink, L: Lock, R: Threads + Sync, G: Gate + Sync>(
    rt: &R,
    alloc: Global,
    words: &[String],
    watchers: Vec<Box<dyn Watch>>,
    gate: &G,
    lock: Option<&L>,
    source: &mut S,
    sink: &mut K,
) -> u8
    requires lock { IfSome lock (λ l. L.fits l.now) }

    // An answer is that of the words, the watchers and the text: of an extremal formula, an
    // orientation or a tree, the end of the run on one thread. That run always pops the first
    // poppable event, so the number of workers and the board make no difference. What is asked for
    // of its layered log follows.
    //
    // - The tree of a grid is answered in the same way, and the grid is made for every source.
    // - For `resample`, it is a legal layered log that leads to an end, with that end.
    // - For `rounds`, it is the one result of the run by rounds.
    // - If a number of samples is asked for, it has the end of each, on the stacks of that sample.
    // - If a run may stop after a number of pops, it is such an end with at most this many pops.
    //   Or it is the certificate of a legal log with this many, after which an event is poppable.
    // - For `replay`, it is the replay of the certificate's log.
    // - For `resume`, it is that of the command line of the certificate, by a run with a log that
    //   begins with the certificate's log.
    ensures answer { (text : List ℕ)
        → IsInput (map string_bytes words.now) (S.left source.old) text → (IsBreak result → ⊥)
        → Answered (map string_bytes words.now) (map (λ b. (kind b, state b)) watchers.items) text
        (K.holds sink.old) (K.holds sink.new) result }
    ensures statuses { result ≤ 11 }

    // Invalid arguments are reported for every source, and nothing else is written then.
    ensures usage { result ≡ 2
        → AnsweredUsage (map string_bytes words.now) (K.holds sink.old) (K.holds sink.new) }
    ensures only_usage { (AreWords (map string_bytes words.now) → ⊥)
        → (result ≡ 2) ⊎ ((result ≡ 8) ⊎ (result ≡ 9)) }

    // The source is left as it was if the arguments are invalid, and if a grid is made.
    ensures unread { (AreWords (map string_bytes words.now) → ⊥)
        ⊎ AskForGrid (map string_bytes words.now) → source.new ≡ source.old }

    ensures read_fault { result ≡ 7
        → HasReadFault (map string_bytes words.now) (S.left source.old) (S.left source.new)
        (S.faults source.old) (S.faults source.new) }
    ensures told_read_fault { result ≡ 7
        → Appends (K.holds sink.old) (K.holds sink.new) (refusal_line (Stopped ReadFault)) }
    ensures write_fault { result ≡ 8 → Rose (K.faults sink.old) (K.faults sink.new) }
    ensures cut { (text : List ℕ)
        → IsInput (map string_bytes words.now) (S.left source.old) text → result ≡ 8
        → IsCutShort (map string_bytes words.now) (map (λ b. (kind b, state b)) watchers.items) text
        (HasReadFault (map string_bytes words.now) (S.left source.old) (S.left source.new)
        (S.faults source.old) (S.faults source.new))
        (K.holds sink.old) (K.holds sink.new) }
    ensures cut_usage { (AreWords (map string_bytes words.now) → ⊥) → result ≡ 8
        → IsUsageCutShort (map string_bytes words.now) (K.holds sink.old) (K.holds sink.new) }
    ensures memory { result ≡ 9
        → Appends (K.holds sink.old) (K.holds sink.new) (refusal_line (Stopped OutOfMemory)) }

    // If the answer is a sample, a verdict, an exhausted end or a certificate, a source that is
    // read was read to its end.
    ensures whole { HasRun result
        → (AskForGrid (map string_bytes words.now) → ⊥) → IsAtEnd (S.left source.new) }

    // A certificate, and the input of a run that may be stopped, is read completely before a byte
    // of it is checked. It is read to its end, or to the first byte past the limit. So an error of
    // reading takes precedence over any error in the bytes that were read.
    ensures read_whole { (job : Job) → Asks (map string_bytes words.now) job
        → (IsBreak result → ⊥)
        → WasReadWhole job.pops job.command (S.left source.old) (S.left source.new) }
{
    let stages = |stages: Stages| -> Result<(Outcome, Instance), AllocError>
        requires lock { IfSome lock (λ l. L.fits l.now) }
        requires grows { MayGrow stages }
        ensures { IfOk result (IsRunInStages stages) }
    { run_in_stages(rt, gate, lock, stages) };
    let finish = |stretch: Stretch| -> Result<Outcome, AllocError>
        requires lock { IfSome lock (λ l. L.fits l.now) }
        requires may { MayGoOn stretch.instance.now stretch.at_hand stretch.reached }
        ensures { IfOk result (IsBroughtOn stretch.entry.instance.now stretch.entry.reached) }
    {
        let Stretch {
            alloc,
            crew,
            instance,
            at_hand,
            reached,
        } = stretch;
        let makers = makers_of(rt, gate, alloc, crew, instance, at_hand)?;
        makers.run(alloc, instance, reached, lock_of(crew, lock))
    };
    let by = By {
        rt,
        stages: &stages,
        finish: &finish,
    };
    match answer_to(&by, alloc, words, watchers, source) {
        Ok(answer) => deliver(sink, &answer.text, answer.status),
        Err(Stop::ReadFault) => deliver(sink, b"s READFAULT\n", 7),
        Err(Stop::OutOfMemory) => deliver(sink, b"s MEMORY\n", 9),
    }
}
