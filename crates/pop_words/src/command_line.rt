// A command line, read argument by argument.
ghost use Rattle.std.specs.Prelude.{◌≡◌, ◌+◌, ◌<◌, map, length, string_bytes, Ok, IfOk, IfErr, OnOk};
ghost use Rattle.pop_words.specs.CommandLines.{Asks, IsWordFault};
ghost use Rattle.pop_words.specs.Options.{default_job};
ghost use Rattle.pop_words.specs.Reading.{behind, IsFault, IsRead};

use crate::option::{are_complete, next_option};
use crate::{Command, Job, WordFault};
use std::alloc::Global;

// Reads the options after the command, and sets their values in the job.
fn set_options(
    alloc: Global,
    command: Command,
    words: &[String],
    job: &mut Job,
) -> Result<(), WordFault>
    requires words { 0 < length words.now }
    requires job { job.old ≡ default_job command }
    ensures job { OnOk result (behind command (map string_bytes words.now) ≡ Ok job.new) }
    ensures fault { IfErr result (IsFault (behind command (map string_bytes words.now))) }
{
    let mut chosen = Vec::new(alloc);
    let mut place = 1;
    while place < words.len() {
        let Some(option) = next_option(command, &chosen, words[place].as_str()) else {
            return Err(WordFault::Usage(place as u32 + 1));
        };
        if place + 1 == words.len() {
            return Err(WordFault::Usage(place as u32 + 2));
        }
        match option.field.value(alloc, words[place + 1].as_bytes())? {
            Some(setting) => job.set(setting),
            None => return Err(WordFault::Usage(place as u32 + 2)),
        }
        chosen.push(option)?;
        place += 2;
    }
    if are_complete(command, &chosen) {
        Ok(())
    } else {
        Err(WordFault::Usage(place as u32 + 1))
    }
}

// The job of a command with the options after it.
fn read_options(alloc: Global, command: Command, words: &[String]) -> Result<Job, WordFault>
    requires { 0 < length words.now }
    ensures { IsRead (behind command (map string_bytes words.now)) result }
{
    let mut job = Job::of(command);
    match set_options(alloc, command, words, &mut job) {
        Ok(()) => Ok(job),
        Err(fault) => {
            drop(job);
            Err(fault)
        }
    }
}

/// Reads the arguments into the job that they specify.
///
/// # Errors
///
/// `Usage` with the place of the first invalid argument, exactly if the arguments specify no job.
pub fn read_words(alloc: Global, words: &[String]) -> Result<Job, WordFault>
    ensures job { IfOk result (λ job. Asks (map string_bytes words.now) job) }
    ensures fault { IfErr result (IsWordFault (map string_bytes words.now)) }
{
    if words.is_empty() {
        return Err(WordFault::Usage(1));
    }
    match Command::named(words[0].as_str()) {
        Some(command) => read_options(alloc, command, words),
        None => Err(WordFault::Usage(1)),
    }
}
