//! Why literals have no samples.
use dimacs_read::LiteralFault;
use std::alloc::AllocError;

/// Why an array of literals has no assignments that can be sampled.
#[derive(Clone, Copy, Debug, PartialEq, Eq)]
pub enum FormulaRefusal {
    /// The literals are not a formula.
    NoFormula(LiteralFault),
    /// The formula is not extremal. These are the numbers, from 1, of the first pair of clauses
    /// that share a variable and can both be false.
    Clash(u32, u32),
    /// Out of memory.
    OutOfMemory,
}

impl From<AllocError> for FormulaRefusal {
    ghost use Rattle.std.specs.Prelude.{◌≡◌};
    ghost use Rattle.array_calls.specs.declared.formula_refusal.FormulaRefusal.TheVariants.{OutOfMemory};

    ghost from_gives = { λ _ refusal. refusal ≡ OutOfMemory };

    fn from(_: AllocError) -> Self {
        FormulaRefusal::OutOfMemory
    }
}

impl From<LiteralFault> for FormulaRefusal {
    ghost use Rattle.std.specs.Prelude.{◌≡◌};
    ghost use Rattle.array_calls.specs.Assignments.{unformed};

    ghost from_gives = { λ fault refusal. refusal ≡ unformed fault };

    fn from(fault: LiteralFault) -> Self {
        match fault {
            LiteralFault::OutOfMemory => FormulaRefusal::OutOfMemory,
            fault => FormulaRefusal::NoFormula(fault),
        }
    }
}
