/// A gate that each worker passes before each of its turns. A test may hold a worker there.
pub trait Gate {
    /// Worker `worker` calls this before its turn number `turn`, counted from 0, while it holds no
    /// lock. Each worker calls it for turn 0, even if it has no units.
    fn at(&self, worker: u32, turn: u64);
}

/// A gate that holds nobody.
#[derive(Drop)]
pub struct NoGate;

impl Gate for NoGate {
    fn at(&self, _worker: u32, _turn: u64) {}
}
