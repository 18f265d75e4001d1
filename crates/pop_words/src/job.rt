// What the arguments specify.
ghost use Rattle.std.specs.Prelude.{◌≡◌};

use crate::setting::Setting;
use crate::{BoardKind, Command, Reports};
use pop_stacks::StackSpec;

/// What the arguments specify. A field that no option sets has its default.
#[derive(Drop)]
pub struct Job {
    pub command: Command,
    /// The source of the stack entries: the rows of `--stacks`, or the key of `--key`. The default
    /// key is 32 bytes 0.
    pub stacks: StackSpec,
    /// The number of entries of each keyed stack, from 1 to 2^31 - 1, set by `--height`. The
    /// default is 2^20.
    pub height: u32,
    /// The last height of keyed stacks that grow, from 1 to 2^31 - 1, set by `--grow`. They start
    /// at the lower of the two heights. By default it is None, and they do not grow.
    pub grow: Option<u32>,
    /// The number of samples, from 1 to 65536, set by `--count`. By default it is None: one sample
    /// is drawn, and it is not printed as a batch.
    pub count: Option<u32>,
    /// The number of pops after which a run stops, from 1 to 2^32 - 1, set by `--pops`. By default
    /// it is None, and the run continues to its end.
    pub pops: Option<u32>,
    /// The number of threads that share the pops, from 1 to 64, set by `--workers`. The default is
    /// 1.
    pub workers: u32,
    /// The synchronisation of these threads, set by `--board`. The default is the lock-free claim
    /// words.
    pub board: BoardKind,
    /// The root of the tree, a vertex from 1 to 2^32 - 1, set by `--root`. The default is 1.
    pub root: u32,
    /// Whether the log of the pops is printed: for `resample`, and if `--log on` is given.
    pub log: bool,
    /// The pop of the witness tree to print, set by `--witness`. It is given by the printed name
    /// of a variable and the entry that the pop used, which counts from 0. None by default.
    pub witness: Option<(u32, u32)>,
    /// The reports of the log to print, set by `--report`. None by default.
    pub reports: Reports,
    /// The number of rows, and of columns, of the grid that is made, from 1 to 2048, set by
    /// `grid`. It is 0 for every command except `make`.
    pub size: u32,
}

impl Job {
    ghost use Rattle.pop_words.specs.Options.{default_job};
    ghost use Rattle.pop_words.specs.Settings.{sets};

    // The job of a command without options.
    pub(crate) fn of(command: Command) -> Job
        ensures { result ≡ default_job command }
    {
        Job {
            command,
            stacks: StackSpec::Key([0; 32]),
            height: 1 << 20,
            grow: None,
            count: None,
            pops: None,
            workers: 1,
            board: BoardKind::Words,
            root: 1,
            log: command.tells_log(),
            witness: None,
            reports: Reports::none(),
            size: 0,
        }
    }

    // Sets the field of this setting.
    pub(crate) fn set(&mut self, setting: Setting)
        ensures { self.new ≡ sets setting self.old }
    {
        match setting {
            Setting::Stacks(stacks) => self.stacks = stacks,
            Setting::Height(height) => self.height = height,
            Setting::Grow(last) => self.grow = Some(last),
            Setting::Count(count) => self.count = Some(count),
            Setting::Pops(pops) => self.pops = Some(pops),
            Setting::Workers(workers) => self.workers = workers,
            Setting::Board(board) => self.board = board,
            Setting::Log(log) => self.log = log,
            Setting::Root(root) => self.root = root,
            Setting::Witness(pair) => self.witness = Some(pair),
            Setting::Reports(reports) => self.reports = reports,
            Setting::Size(size) => self.size = size,
        }
    }
}
