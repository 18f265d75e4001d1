//! Laws of rows and lines. Each function's contract is the law.

ghost use Rattle.array_laws.specs.PrintedAssignments.{AssignmentRowsPrinted, RoundRowPrinted};
ghost use Rattle.array_laws.specs.PrintedRows.{OrientationRowsPrinted, TreeRowsPrinted};

/// If an input is read as the graph of the arrays, the answer of `tree` under a key has the lines
/// of the row of each sample: arrows, cursors and the number of pops. This holds for every call
/// that filled the row.
pub fn tree_rows_printed()
    ensures { TreeRowsPrinted }
{}

/// If an input is read as the graph of the arrays, the answer of `orient` under a key has the
/// lines of the row of orientations of each sample.
pub fn orientation_rows_printed()
    ensures { OrientationRowsPrinted }
{}

/// If an input is read as the formula of the arrays, the answer of `formula` under a key has the
/// lines of the row of each sample by popping. This holds for every call that filled the row.
pub fn assignment_rows_printed()
    ensures { AssignmentRowsPrinted }
{}

/// If an input is read as the formula of the arrays, the answer of `rounds` under a key has the
/// lines of the row of sample 0 by rounds. Events of the formula may clash.
pub fn round_row_printed()
    ensures { RoundRowPrinted }
{}
