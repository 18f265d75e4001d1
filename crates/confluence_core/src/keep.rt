use crate::log::Log;

/// What a run keeps in addition to its end.
#[derive(Clone, Copy, Debug, PartialEq, Eq)]
pub enum Keep {
    Nothing,
    /// The log of its pops.
    Log,
}

impl Keep {
    ghost use Rattle.std.specs.Prelude.{◌≡◌, Some, None, if◌then◌else◌};
    ghost use Rattle.confluence_core.specs.Kept.{keeps_log};

    // Whether the log is kept.
    pub(crate) fn keeps_log(self) -> bool
        ensures { result ≡ keeps_log self }
    {
        self == Keep::Log
    }

    /// The log, if it is kept.
    pub fn kept(self, log: Log) -> Option<Log>
        ensures { result ≡ (if keeps_log self then Some log else None) }
    {
        match self {
            Keep::Log => Some(log),
            Keep::Nothing => None,
        }
    }
}
