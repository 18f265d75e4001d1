//! Rows of numbers that are kept in one array. Each row of `FlatRows` has room for a fixed number
//! of them: a first pass counts this room, and a second one pushes the numbers. A `RowList` gets
//! its rows one after another, and `Fronts` are prefixes of one list. Contracts see the rooms and
//! the rows as lists.
#![tactic(auto)]

mod counting;
mod flat_rows;
mod fronts;
mod lists;
mod parts;
mod prefix_sums;
mod row_list;

pub use counting::count_at;
pub use flat_rows::FlatRows;
pub use fronts::Fronts;
pub use lists::copy_lists;
pub use prefix_sums::accumulate;
pub use row_list::RowList;
