/// The result of the check of a listed family.
#[derive(Clone, Copy, Debug, PartialEq, Eq)]
pub enum Verdict {
    /// Any two events that share a variable demand different values of a shared variable.
    Extremal,
    /// The numbers of the first pair of events that share a variable and demand the same value of
    /// every shared variable. The first pair is the one with the lowest lower number, and among
    /// those the one with the lowest higher number.
    Clash(u32, u32),
}
