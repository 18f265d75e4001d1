/// The number of a worker, from 0, and how many workers there are.
#[derive(Clone, Copy)]
pub struct Worker {
    pub number: u32,
    pub workers: u32,
}
