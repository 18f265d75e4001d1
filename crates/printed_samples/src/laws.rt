//! Theorems about the printed ends of formulas and orientations. The contract of each function
//! states one.
ghost use Rattle.printed_samples.specs.Laws.{PrintedSatisfies, PrintedLeaves, PrintedFalse, PrintedSinks, SoundValues, FormulaShown, OrientationShown};

/// If no event of a formula occurs, each clause has one of the printed literals.
pub fn printed_satisfies()
    ensures { PrintedSatisfies }
{}

/// If no sink of a graph occurs, an arrow leaves each vertex.
pub fn printed_leaves()
    ensures { PrintedLeaves }
{}

/// If events of a formula occur, the printed numbers are those of the clauses that are false.
pub fn printed_false()
    ensures { PrintedFalse }
{}

/// If sinks of a graph occur, the printed numbers are those of the vertices that no arrow leaves.
pub fn printed_sinks()
    ensures { PrintedSinks }
{}

/// In stacks without a fault each value of a variable is one of those that have a weight.
pub fn sound_values()
    ensures { SoundValues }
{}

/// The text of the result at an end of a formula, with the cursors, shows a sample or the clauses
/// that are false. This holds for any text that follows it.
pub fn formula_shown()
    ensures { FormulaShown }
{}

/// The text of an end of a graph's sinks shows an orientation, or the vertices that no arrow
/// leaves.
pub fn orientation_shown()
    ensures { OrientationShown }
{}
