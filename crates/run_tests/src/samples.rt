//! The theorems of `pop_samples`, tried on all rows of small instances: three variables with two
//! values, uneven weights and three entries each.

mod counts;
mod finishes;
mod instances;
