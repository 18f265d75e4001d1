//! Finders. Each claims variables on a board of lock-free words until it has an event to pop, or
//! knows that there is none. It leaves its pass idle, and no call waits. `try_unit` tries the
//! event of one unit of a listed family; `try_walk` and `walk_on` walk along the arrows of a cycle
//! family.
//!
//! Contracts see a board and a pass as `claim_words` does: what claims and takes found is added at
//! the end of `seen`. They see a walker as the path of its walk, which is empty between walks.
#![tactic(auto)]

mod listed_event;
mod owed_marks;
mod tried;
mod unit_claims;
mod unit_look;
mod unit_tries;
mod variable_look;
mod walk_bounds;
mod walker;
mod walking;
mod walks;

pub use tried::Tried;
pub use unit_tries::try_unit;
pub use walk_bounds::WalkBounds;
pub use walker::Walker;
pub use walks::{try_walk, walk_on};
