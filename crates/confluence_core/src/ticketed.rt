use crate::Record;

/// A record under the ticket that its pop drew. Tickets count from 0.
#[derive(Drop)]
pub struct Ticketed {
    pub ticket: u64,
    pub popped: Record,
}
