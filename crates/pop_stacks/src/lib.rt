//! The stacks of entries: which value each variable has at each entry, read from given rows or
//! from a ChaCha20 key stream. Contracts see stacks as `StackTable`, rows and weights as lists of
//! lists, and a reader as the stacks that it reads.
#![tactic(auto)]

mod bit_line;
mod bit_planes;
mod byte_line;
mod drawing;
mod drawing_many;
mod kept_values;
mod key_stream;
mod lanes;
mod laws;
mod mark;
mod prefix_sums;
mod quad_line;
mod reader;
mod refill;
mod row_faults;
mod rows;
mod stack_fault;
mod stack_spec;
mod stacks;
mod sums;
mod weights;

pub use laws::least_value;
pub use reader::Reader;
pub use rows::Rows;
pub use stack_fault::StackFault;
pub use stack_spec::StackSpec;
pub use stacks::Stacks;
pub use weights::Weights;
