// Which reports are requested.
ghost use Rattle.std.specs.Prelude.{◌≡◌};

/// Which reports are requested. They are printed in the order totals, heights, layers, whatever
/// the order of their names in the argument.
#[derive(Clone, Copy, Debug, PartialEq, Eq)]
pub struct Reports {
    /// The number of records, the number of entries, and the length of the longest record.
    pub totals: bool,
    /// The number of entries with each number of binary digits.
    pub heights: bool,
    /// The number of layers of the log, and the number of variables that it names.
    pub layers: bool,
}

impl Reports {
    ghost use Rattle.pop_words.specs.Values.{no_reports};

    // No report.
    pub(crate) fn none() -> Reports
        ensures { result ≡ no_reports }
    {
        Reports {
            totals: false,
            heights: false,
            layers: false,
        }
    }
}
