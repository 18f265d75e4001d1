//! Errors: why there is no run, and how this is printed.
ghost use Rattle.std.specs.Prelude.{◌≡◌, IfOk};
ghost use Rattle.job_subjects.specs.Refusals.{s_line, IsTold, unread, unworded, unoriented, uncertified, unlogged as unlogged_as, IsEarlyRecord};
ghost use Rattle.job_subjects.specs.StackFaults.{unsound as unsound_as, HasName};
ghost use Rattle.job_subjects.specs.declared.refusal.Refusal.TheVariants.{Stopped};
ghost use Rattle.job_subjects.specs.declared.stop.Stop.TheVariants.{OutOfMemory};

use crate::answer::Answer;
use crate::stop::Stop;
use pop_edge::ReadRefusal;
use pop_log::LogRefusal;
use pop_print::Facts;
use pop_stacks::StackFault;
use pop_words::WordFault;
use run_cert::CertRefusal;
use sink_popping::SinkFault;
use std::alloc::{AllocError, Global};

/// Why there is no run. Places, lines, clauses, vertices, records and the names of variables count
/// from 1, and entries from 0.
#[derive(Clone, Copy, Debug, PartialEq, Eq)]
pub enum Refusal {
    /// The arguments are not a command line: the place of the first invalid argument.
    Usage(u32),
    /// A line of the input, and the code of what is wrong in it.
    Malformed(u64, u32),
    /// The number of clauses that the header declares, and how many there are.
    Count(u32, u32),
    /// The lowest clause without literals.
    EmptyClause(u32),
    /// The kind of a limit, and the line that exceeds it.
    Limit(u32, u64),
    /// The lowest vertex without edges.
    Isolated(u32),
    /// The requested root, which is not a vertex.
    NoRoot(u32),
    /// The lowest vertex that is not connected to the root.
    CutOff(u32),
    /// The requested number of samples, which is too large.
    TooMany(u32),
    /// The number of given rows, and the number of variables.
    RowCount(u32, u32),
    /// The variable with an empty row.
    EmptyRow(u32),
    /// The variable, and its first entry that is not one of its values.
    ValueTooLarge(u32, u32),
    /// The variable with too large a sum of weights.
    WeightSum(u32),
    /// The numbers of the first two events that clash.
    Clashes(u32, u32),
    /// The first record of a certificate's log that is not legal.
    NotLegal(u64),
    /// Reading failed, or memory ran out, and there is no result.
    Stopped(Stop),
}

impl From<AllocError> for Refusal {
    ghost from_gives = { λ _ refusal. refusal ≡ Stopped OutOfMemory };

    fn from(_: AllocError) -> Self {
        Refusal::Stopped(Stop::OutOfMemory)
    }
}

impl From<Stop> for Refusal {
    ghost from_gives = { λ stop refusal. refusal ≡ Stopped stop };

    fn from(stop: Stop) -> Self {
        Refusal::Stopped(stop)
    }
}

impl From<WordFault> for Refusal {
    ghost from_gives = { λ fault refusal. refusal ≡ unworded fault };

    fn from(fault: WordFault) -> Self {
        match fault {
            WordFault::Usage(place) => Refusal::Usage(place),
            WordFault::OutOfMemory => Refusal::Stopped(Stop::OutOfMemory),
        }
    }
}

impl From<ReadRefusal> for Refusal {
    ghost from_gives = { λ cause refusal. refusal ≡ unread cause };

    fn from(cause: ReadRefusal) -> Self {
        match cause {
            ReadRefusal::Malformed(line, code) => Refusal::Malformed(line, code),
            ReadRefusal::Count(declared, found) => Refusal::Count(declared, found),
            ReadRefusal::EmptyClause(number) => Refusal::EmptyClause(number),
            ReadRefusal::Limit(kind, line) => Refusal::Limit(kind, line),
            ReadRefusal::ReadFault => Refusal::Stopped(Stop::ReadFault),
            ReadRefusal::OutOfMemory => Refusal::Stopped(Stop::OutOfMemory),
        }
    }
}

impl From<SinkFault> for Refusal {
    ghost from_gives = { λ fault refusal. refusal ≡ unoriented fault };

    fn from(fault: SinkFault) -> Self {
        match fault {
            SinkFault::Isolated(vertex) => Refusal::Isolated(vertex),
            SinkFault::OutOfMemory => Refusal::Stopped(Stop::OutOfMemory),
        }
    }
}

impl From<CertRefusal> for Refusal {
    ghost from_gives = { λ cause refusal. refusal ≡ uncertified cause };

    fn from(cause: CertRefusal) -> Self {
        match cause {
            CertRefusal::Malformed(line, code) => Refusal::Malformed(line, code),
            CertRefusal::OutOfMemory => Refusal::Stopped(Stop::OutOfMemory),
        }
    }
}

/// The error for the text of a certificate's log. Its lines and records count from 1.
pub fn unlogged(refusal: LogRefusal) -> Refusal
    requires { IsEarlyRecord refusal }
    ensures { result ≡ unlogged_as refusal }
{
    match refusal {
        LogRefusal::Limit => Refusal::Limit(7, 1),
        LogRefusal::Malformed(line) => Refusal::Malformed(line, 31),
        LogRefusal::NotLegal(place) => Refusal::NotLegal(place + 1),
        LogRefusal::Unlayered(place) => Refusal::Malformed(place + 2, 32),
        LogRefusal::OutOfMemory => Refusal::Stopped(Stop::OutOfMemory),
    }
}

/// The error for a fault of stacks. The facts name its variable.
pub fn unsound(facts: &Facts, fault: StackFault) -> Refusal
    requires { HasName fault }
    ensures { result ≡ unsound_as facts.now fault }
{
    match fault {
        StackFault::RowCount(given, wanted) => Refusal::RowCount(given, wanted),
        StackFault::EmptyRow(v) => Refusal::EmptyRow(facts.name(v)),
        StackFault::ValueTooLarge(v, k) => Refusal::ValueTooLarge(facts.name(v), k),
        StackFault::WeightSum(v) => Refusal::WeightSum(facts.name(v)),
        StackFault::OutOfMemory => Refusal::Stopped(Stop::OutOfMemory),
    }
}

/// The result with this status, and one line with a keyword and numbers.
pub fn told_in_line(
    alloc: Global,
    status: u8,
    word: &str,
    numbers: &[u64],
) -> Result<Answer, AllocError>
    ensures status { IfOk result (λ a. a.status ≡ status) }
    ensures text { IfOk result (λ a. a.text.items ≡ s_line word.now numbers.now) }
{
    let mut text = format!(in alloc; "s {word}")?;
    for number in numbers {
        write!(text, " {number}")?;
    }
    text.push('\n')?;
    Ok(Answer {
        status,
        text: text.into_bytes(),
    })
}

impl Refusal {
    /// The error as a result, with its status and its line. There is none if the call was stopped.
    pub fn told(self, alloc: Global) -> Result<Answer, Stop>
        ensures { IsTold self result }
    {
        let answer = match self {
            Refusal::Usage(place) => told_in_line(alloc, 2, "USAGE", &[place as u64]),
            Refusal::Malformed(line, code) => {
                told_in_line(alloc, 3, "MALFORMED", &[line, code as u64])
            }
            Refusal::Count(declared, found) => {
                told_in_line(alloc, 3, "COUNT", &[declared as u64, found as u64])
            }
            Refusal::EmptyClause(number) => told_in_line(alloc, 6, "EMPTY", &[number as u64]),
            Refusal::Limit(kind, line) => told_in_line(alloc, 4, "LIMIT", &[kind as u64, line]),
            Refusal::Isolated(vertex) => told_in_line(alloc, 6, "ISOLATED", &[vertex as u64]),
            Refusal::NoRoot(root) => told_in_line(alloc, 6, "ROOT", &[root as u64]),
            Refusal::CutOff(vertex) => told_in_line(alloc, 6, "CUTOFF", &[vertex as u64]),
            Refusal::TooMany(samples) => told_in_line(alloc, 4, "LIMIT", &[9, samples as u64]),
            Refusal::RowCount(given, wanted) => {
                told_in_line(alloc, 3, "ROWS", &[given as u64, wanted as u64])
            }
            Refusal::EmptyRow(name) => told_in_line(alloc, 3, "EMPTYROW", &[name as u64]),
            Refusal::ValueTooLarge(name, k) => {
                told_in_line(alloc, 3, "VALUE", &[name as u64, k as u64])
            }
            Refusal::WeightSum(name) => told_in_line(alloc, 4, "LIMIT", &[6, name as u64]),
            Refusal::Clashes(number, other) => {
                told_in_line(alloc, 5, "CLASH", &[number as u64, other as u64])
            }
            Refusal::NotLegal(place) => told_in_line(alloc, 11, "NOTLEGAL", &[place]),
            Refusal::Stopped(stop) => return Err(stop),
        };
        Ok(answer?)
    }
}
