//! Theorems about cycles. The contract of each function states one.
ghost use Rattle.cycle_popping.specs.Laws.{CyclesExtremal, TreeEnd};

/// Two different cycles that share a variable demand different slots of some shared variable.
pub fn cycles_extremal()
    ensures { CyclesExtremal }
{}

/// No cycle occurs exactly if the current arrows lead from each variable to the root.
pub fn tree_end()
    ensures { TreeEnd }
{}
