//! Tests of rows of numbers, of stacks and their readers, and of cubes, events, arrows, indexes,
//! instances and cursors, by public calls of `pop_rows`, `pop_stacks` and `pop_instance`. They are
//! in a crate above these, so that these crates are not proved once more with their tests.
#![tactic(auto)]

#[cfg(test)]
mod arrows;
#[cfg(test)]
mod compare;
#[cfg(test)]
mod cubes;
#[cfg(test)]
mod cursors;
#[cfg(test)]
mod events;
#[cfg(test)]
mod faults;
#[cfg(test)]
mod first_blocks;
#[cfg(test)]
mod flat_rows;
#[cfg(test)]
mod fronts;
#[cfg(test)]
mod index;
#[cfg(test)]
mod instances;
#[cfg(test)]
mod readers;
#[cfg(test)]
mod row_list;
#[cfg(test)]
mod tables;
#[cfg(test)]
mod values;
#[cfg(test)]
mod words;
