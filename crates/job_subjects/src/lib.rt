//! Makes what a job runs. A formula, a graph or a grid is read and made into an instance, or
//! rejected for its input, its structure or its stacks. Also how each error is printed.
#![tactic(auto)]

mod answer;
mod by_command;
mod instances;
mod making;
mod origin;
mod reading;
mod refusal;
mod stop;
mod wanted;

pub use answer::Answer;
pub use by_command::made_of;
pub use making::{Made, refuse_clash};
pub use origin::{StackOrigin, copy_spec};
pub use reading::formula_of;
pub use refusal::{Refusal, told_in_line, unlogged};
pub use stop::Stop;
pub use wanted::Wanted;
