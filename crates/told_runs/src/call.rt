//! The context of a call of `run`.
use pop_watch::Watch;
use run_makers::Crew;
use std::alloc::Global;

/// The context of a call of `run` after its arguments are read: the memory, the maker of its run,
/// the crew of threads, and the watchers. It has no model, since a view names no state of a boxed
/// watcher. Contracts see the maker, the crew, and the kind and the state of each watcher.
#[derive(Drop)]
pub struct Call<'a, M> {
    pub alloc: Global,
    pub maker: &'a M,
    pub crew: Crew,
    pub watchers: Vec<Box<dyn Watch>>,
}
