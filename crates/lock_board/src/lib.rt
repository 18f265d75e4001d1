//! The book: the pops of a run that threads share under a lock. It has the cursors, and the log of
//! the pops that led there.
//!
//! Contracts see a book as its cursors and its log. The type guarantees that the log is legal from
//! the start and that the cursors are its replay. So a thread that takes the lock knows this of
//! the book.
#![tactic(auto)]

mod arrow_walk;
mod attempt;
mod book;
mod cycle_from;
pub mod laws;
mod site;

pub use attempt::Attempt;
pub use book::Book;
pub use site::Site;
