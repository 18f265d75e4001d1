// The commands, as a table with one row each.
ghost use Rattle.std.specs.Prelude.{◌≡◌};
ghost use Rattle.pop_words.specs.Options.{command_row, command_word, input_of};
ghost use Rattle.pop_words.specs.Reading.{command_named};

/// What to do with the formula, the graph or the certificate on the input, or with a grid that is
/// made.
#[derive(Clone, Copy, Debug, PartialEq, Eq)]
pub enum Command {
    /// `formula`: sample a satisfying assignment of the formula.
    Formula,
    /// `orient`: sample a sink-free orientation of the graph.
    Orient,
    /// `tree`: sample a spanning tree of the graph, with its arrows to a root.
    Tree,
    /// `resample`: find a satisfying assignment of any formula, also if clauses clash, and print
    /// the log of the pops.
    Resample,
    /// `check`: check whether the clauses of the formula are extremal.
    Check,
    /// `make`: sample a spanning tree of a square grid that is made from a number, and print a
    /// summary.
    Make,
    /// `rounds`: sample a satisfying assignment by synchronous rounds, also if clauses clash.
    Rounds,
    /// `replay`: verify the log of a certificate, and print the state that its run reached.
    Replay,
    /// `resume`: continue the run of a certificate to its end, and print what the certificate's
    /// command prints.
    Resume,
}

/// The kind of input that a command reads.
#[derive(Clone, Copy, Debug, PartialEq, Eq)]
pub enum Input {
    /// A formula.
    Formula,
    /// A graph.
    Graph,
    /// No input.
    Nothing,
    /// A certificate: a command, its stacks and its input, with the log of a run.
    Certificate,
}

// The properties of a command.
#[derive(Clone, Copy)]
struct CommandRow {
    // Its name on the command line.
    word: &'static str,
    // The kind of input that it reads.
    input: Input,
    // Whether it prints its log by default.
    log: bool,
}

impl Command {
    const ALL: [Command; 9] = [
        Command::Formula,
        Command::Orient,
        Command::Tree,
        Command::Resample,
        Command::Check,
        Command::Make,
        Command::Rounds,
        Command::Replay,
        Command::Resume,
    ];

    // The row of this command in the table.
    fn row(self) -> CommandRow
        ensures word { result.word.now ≡ (command_row self).word }
        ensures input { result.input ≡ (command_row self).input }
        ensures log { result.log ≡ (command_row self).log }
    {
        let (word, input, log) = match self {
            Command::Formula => ("formula", Input::Formula, false),
            Command::Orient => ("orient", Input::Graph, false),
            Command::Tree => ("tree", Input::Graph, false),
            Command::Resample => ("resample", Input::Formula, true),
            Command::Check => ("check", Input::Formula, false),
            Command::Make => ("make", Input::Nothing, false),
            Command::Rounds => ("rounds", Input::Formula, false),
            Command::Replay => ("replay", Input::Certificate, false),
            Command::Resume => ("resume", Input::Certificate, false),
        };
        CommandRow { word, input, log }
    }

    /// The name of this command on the command line.
    pub fn word(self) -> &'static str
        ensures { result.now ≡ command_word self }
    {
        self.row().word
    }

    /// The kind of input that it reads.
    pub fn input(self) -> Input
        ensures { result ≡ input_of self }
    {
        self.row().input
    }

    /// Whether it prints its log by default.
    pub fn tells_log(self) -> bool
        ensures { result ≡ (command_row self).log }
    {
        self.row().log
    }

    // The command with this name.
    pub(crate) fn named(word: &str) -> Option<Command>
        ensures { result ≡ command_named word.now }
    {
        Command::ALL
            .iter()
            .find(|command| command.word() == word)
            .copied()
    }
}
