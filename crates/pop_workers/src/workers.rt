/// The workers of a board: a number of them on threads of a runtime, which pass a gate.
#[derive(Drop)]
pub struct Workers<'c, R, G> {
    pub rt: &'c R,
    pub gate: &'c G,
    pub workers: u32,
}
