//! Which lock the arguments ask for.
ghost use Rattle.std.specs.Prelude.{◌≡◌, ◌↔◌, map, string_bytes, IsTrue, IfOk};
ghost use Rattle.pop_words.specs.declared.board_kind.BoardKind.TheVariants.{Lock};
ghost use Rattle.top_call.specs.Locks.{AskForLock};

use pop_words::{BoardKind, Job, WordFault, read_words};
use std::alloc::{AllocError, Global};

// Whether the job has its workers share a book under a lock.
fn has_lock(job: &Job) -> bool
    ensures { IsTrue result ↔ (job.now.board ≡ Lock) }
{
    job.board == BoardKind::Lock
}

/// Whether the arguments are a command line that asks for a book under a lock, by `--board lock`.
/// The error is returned only if memory ran out.
#[tactic(auto, using(crate::proofs::AskedLocks::none_bad))]
pub fn ask_for_lock(alloc: Global, words: &[String]) -> Result<bool, AllocError>
    ensures { IfOk result (λ asks. IsTrue asks ↔ AskForLock (map string_bytes words.now)) }
{
    match read_words(alloc, words) {
        Ok(job) => {
            let asks = has_lock(&job);
            drop(job);
            Ok(asks)
        }
        Err(WordFault::Usage(_)) => Ok(false),
        Err(WordFault::OutOfMemory) => Err(AllocError),
    }
}
