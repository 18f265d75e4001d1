// The options, as a table with one row each. A new option is another row, and the field that it
// sets.
ghost use Rattle.std.specs.Prelude.{◌≡◌, map, option_map};
ghost use Rattle.std.specs.List.{list_any};
ghost use Rattle.pop_words.specs.Reading.{seen, option_named, same_name, allows, excludes, compatible, may_follow, option_next, stands_if_needed, is_complete};

use crate::Command;
use crate::field::Field;

/// The properties of an option.
#[derive(Clone, Copy)]
pub struct OptionRow {
    // Its name on the command line.
    name: &'static str,
    /// The field that it sets, which determines the grammar of its value.
    pub field: Field,
    // The commands that allow it.
    commands: &'static [Command],
    // The names of the options that conflict with it.
    excludes: &'static [&'static str],
    // Whether every command that allows it requires it.
    needed: bool,
}

// The commands that sample.
const SAMPLING: &[Command] = &[
    Command::Formula,
    Command::Orient,
    Command::Tree,
    Command::Resample,
    Command::Make,
    Command::Rounds,
];

// The commands that pop one event after another: those that sample, except `rounds`. Their stacks
// may grow, and reports of their log may be printed.
const POPPING: &[Command] = &[
    Command::Formula,
    Command::Orient,
    Command::Tree,
    Command::Resample,
    Command::Make,
];

// The commands with pops that several threads may share: those above, and `resume`, which
// continues their runs.
const SHARED: &[Command] = &[
    Command::Formula,
    Command::Orient,
    Command::Tree,
    Command::Resample,
    Command::Make,
    Command::Resume,
];

// The commands with runs that may be stopped before their end.
const PAUSED: &[Command] = &[
    Command::Formula,
    Command::Orient,
    Command::Tree,
    Command::Resample,
];

// The commands that may draw a batch of samples.
const BATCHED: &[Command] = &[Command::Formula, Command::Orient, Command::Tree];

// The commands that pop and do not print a log by default.
const QUIET: &[Command] = &[
    Command::Formula,
    Command::Orient,
    Command::Tree,
    Command::Make,
];

// The options of keyed stacks.
const KEYED: &[&str] = &["--key", "--height", "--grow"];

// The options that conflict with a batch of samples. Given rows have the entries of only one
// sample, and the others concern a single run.
const UNBATCHED: &[&str] = &[
    "--stacks",
    "--workers",
    "--board",
    "--log",
    "--witness",
    "--report",
    "--grow",
];

// The options that conflict with `--pops`. A certificate does not record them.
const UNPAUSED: &[&str] = &[
    "--count",
    "--workers",
    "--board",
    "--log",
    "--witness",
    "--report",
    "--grow",
];

const OPTIONS: [OptionRow; 13] = [
    OptionRow {
        name: "--stacks",
        field: Field::Stacks,
        commands: SAMPLING,
        excludes: KEYED,
        needed: false,
    },
    OptionRow {
        name: "--key",
        field: Field::Key,
        commands: SAMPLING,
        excludes: &[],
        needed: false,
    },
    OptionRow {
        name: "--height",
        field: Field::Height,
        commands: SAMPLING,
        excludes: &[],
        needed: false,
    },
    OptionRow {
        name: "--grow",
        field: Field::Grow,
        commands: POPPING,
        excludes: &[],
        needed: false,
    },
    OptionRow {
        name: "--count",
        field: Field::Count,
        commands: BATCHED,
        excludes: UNBATCHED,
        needed: false,
    },
    OptionRow {
        name: "--pops",
        field: Field::Pops,
        commands: PAUSED,
        excludes: UNPAUSED,
        needed: false,
    },
    OptionRow {
        name: "--workers",
        field: Field::Workers,
        commands: SHARED,
        excludes: &[],
        needed: false,
    },
    OptionRow {
        name: "--board",
        field: Field::Board,
        commands: SHARED,
        excludes: &[],
        needed: false,
    },
    OptionRow {
        name: "--log",
        field: Field::Log,
        commands: QUIET,
        excludes: &[],
        needed: false,
    },
    OptionRow {
        name: "--root",
        field: Field::Root,
        commands: &[Command::Tree],
        excludes: &[],
        needed: false,
    },
    OptionRow {
        name: "--witness",
        field: Field::Witness,
        commands: POPPING,
        excludes: &[],
        needed: false,
    },
    OptionRow {
        name: "--report",
        field: Field::Reports,
        commands: POPPING,
        excludes: &[],
        needed: false,
    },
    OptionRow {
        name: "grid",
        field: Field::Size,
        commands: &[Command::Make],
        excludes: &[],
        needed: true,
    },
];

impl OptionRow {
    // Whether the command allows it.
    fn allows(&self, command: Command) -> bool
        ensures { result ≡ allows (seen self.now) command }
    {
        self.commands.contains(&command)
    }

    // Whether it conflicts with the option of this name.
    fn excludes(&self, name: &str) -> bool
        ensures { result ≡ excludes (seen self.now) name.now }
    {
        self.excludes.iter().any(|excluded| *excluded == name)
    }

    // Whether the two can be combined in one command line.
    fn is_compatible(&self, other: &OptionRow) -> bool
        ensures { result ≡ compatible (seen self.now) (seen other.now) }
    {
        self.name != other.name && !self.excludes(other.name) && !other.excludes(self.name)
    }

    // Whether it is allowed after these options.
    fn may_follow(&self, command: Command, before: &[OptionRow]) -> bool
        ensures { result ≡ may_follow command (map seen before.now) (seen self.now) }
    {
        self.allows(command) && before.iter().all(|other| other.is_compatible(self))
    }

    // Whether it is among these options.
    fn is_among(&self, chosen: &[OptionRow]) -> bool
        ensures { result ≡ list_any (same_name (seen self.now)) (map seen chosen.now) }
    {
        chosen.iter().any(|other| self.name == other.name)
    }

    // Whether it is given, if this command requires it.
    fn stands_if_needed(&self, command: Command, chosen: &[OptionRow]) -> bool
        ensures { result ≡ stands_if_needed command (map seen chosen.now) (seen self.now) }
    {
        !(self.allows(command) && self.needed) || self.is_among(chosen)
    }

    // The option with this name.
    fn named(name: &str) -> Option<OptionRow>
        ensures { option_map seen result ≡ option_named name.now }
    {
        OPTIONS.iter().find(|row| row.name == name).copied()
    }
}

/// The option with this name, if it is allowed after these options.
pub fn next_option(command: Command, before: &[OptionRow], name: &str) -> Option<OptionRow>
    ensures { option_map seen result ≡ option_next command (map seen before.now) name.now }
{
    OptionRow::named(name).filter(|row| row.may_follow(command, before))
}

/// Whether no required option is missing.
pub fn are_complete(command: Command, chosen: &[OptionRow]) -> bool
    ensures { result ≡ is_complete command (map seen chosen.now) }
{
    OPTIONS
        .iter()
        .all(|row| row.stands_if_needed(command, chosen))
}
