ghost use Rattle.pop_stacks.specs.Laws.{ValueIsLeast};

/// The value of a keyed entry is the smallest j such that the weights 0 to j of its variable sum
/// to more than m. Here m is the entry's number, scaled to the sum of all weights.
pub fn least_value()
    ensures { ValueIsLeast }
{}
