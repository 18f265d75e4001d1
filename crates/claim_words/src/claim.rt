/// The result of a claim of a variable.
#[derive(Clone, Copy, Debug, PartialEq, Eq)]
pub enum Claim {
    /// The variable was free, with this cursor. Now the pass holds it.
    Mine(u32),
    /// The variable is claimed, by another pass or by this one. This is its word: bit 63 is set,
    /// and bits 0 to 31 are its cursor.
    Busy(u64),
    /// The variable is settled, with this cursor, and will never be free again.
    Settled(u32),
}
