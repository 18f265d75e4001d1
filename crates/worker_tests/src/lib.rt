//! Tests of workers and of their claims, by public calls: boards of claim words, finders, and runs
//! by workers. `claim_words`, `event_finders` and `pop_workers` have no tests of their own, so
//! that they are proved only once.
//!
//! A function that owns an instance, an end or a board drops it by a call. The drop is then proved
//! once, and not in each function that owns such a value.
#![tactic(auto)]

#[cfg(test)]
mod claims;
#[cfg(test)]
mod comparing;
#[cfg(test)]
mod drawn;
#[cfg(test)]
mod finders;
#[cfg(test)]
mod made;
#[cfg(test)]
mod passes;
#[cfg(test)]
mod sampling;
