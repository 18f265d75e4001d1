//! popsample for programs in C, as a static library: its answers to words and a text in memory, and
//! samples of graphs and formulas in arrays. All work is done on the calling thread, and nothing is
//! kept from one call to the next. `c/include/popsample.h` declares the exports.
#![tactic(auto)]

mod answering;
mod assignments_export;
mod drawing;
mod export;
mod laws;
mod orientations_export;
mod trees_export;

pub use laws::fits_then;
