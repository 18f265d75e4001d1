//! The theorem about printed literals. The contract of the function states it.
ghost use Rattle.pop_print.specs.Laws.{SignedLiterals};

/// For each variable the literal that is true is printed.
pub fn signed_literals()
    ensures { SignedLiterals }
{}
