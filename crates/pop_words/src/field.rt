// The fields of a job that options set. Each field has values of one grammar.
ghost use Rattle.std.specs.Prelude.{◌≡◌, option_map, IfOk};
ghost use Rattle.pop_words.specs.Options.{value_of};
ghost use Rattle.pop_words.specs.Settings.{sets};

use crate::setting::Setting;
use crate::value::{board_in, key_in, number_between, pair_in, reports_in, rows_in, switch_in};
use pop_stacks::StackSpec;
use std::alloc::{AllocError, Global};

// The largest height of keyed stacks, and their largest last height.
const MAX_HEIGHT: u32 = (1 << 31) - 1;

// The largest number of samples of a batch.
const MAX_COUNT: u32 = 65536;

// The largest number of pops after which a run can be stopped.
const MAX_POPS: u32 = u32::MAX;

// The largest number of threads that share a run.
const MAX_WORKERS: u32 = 64;

// The largest number of rows, and of columns, of a grid.
const MAX_SIZE: u32 = 2048;

/// The field that an option sets. `Stacks` and `Key` both set the job's stacks.
#[derive(Clone, Copy, Debug, PartialEq, Eq)]
pub enum Field {
    Stacks,
    Key,
    Height,
    Grow,
    Count,
    Pops,
    Workers,
    Board,
    Log,
    Root,
    Witness,
    Reports,
    Size,
}

impl Field {
    /// The setting that an argument makes as the value of this field, or None if it is not a value
    /// of it.
    pub fn value(self, alloc: Global, word: &[u8]) -> Result<Option<Setting>, AllocError>
        ensures { IfOk result (λ read. option_map sets read ≡ value_of self word.now) }
    {
        match self {
            Field::Stacks => {
                let rows = rows_in(alloc, word)?;
                Ok(rows.map(|rows| Setting::Stacks(StackSpec::Given(rows))))
            }
            Field::Key => match key_in(word) {
                Some(key) => Ok(Some(Setting::Stacks(StackSpec::Key(key)))),
                None => Ok(None),
            },
            Field::Height => Ok(number_between(1, MAX_HEIGHT, word).map(Setting::Height)),
            Field::Grow => Ok(number_between(1, MAX_HEIGHT, word).map(Setting::Grow)),
            Field::Count => Ok(number_between(1, MAX_COUNT, word).map(Setting::Count)),
            Field::Pops => Ok(number_between(1, MAX_POPS, word).map(Setting::Pops)),
            Field::Workers => Ok(number_between(1, MAX_WORKERS, word).map(Setting::Workers)),
            Field::Board => Ok(board_in(word).map(Setting::Board)),
            Field::Log => Ok(switch_in(word).map(Setting::Log)),
            Field::Root => Ok(number_between(1, u32::MAX, word).map(Setting::Root)),
            Field::Witness => {
                let pair = pair_in(alloc, word)?;
                Ok(pair.map(Setting::Witness))
            }
            Field::Reports => Ok(reports_in(word).map(Setting::Reports)),
            Field::Size => Ok(number_between(1, MAX_SIZE, word).map(Setting::Size)),
        }
    }
}
