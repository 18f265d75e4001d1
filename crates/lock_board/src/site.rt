use std::marker::Brand;

/// The instance of a book, and the cursors that it starts from. The caller of a function that is
/// generic over it chooses the type.
pub trait Site {
    ghost use Rattle.std.specs.Prelude.{ℕ, List};
    ghost use Rattle.pop_model.specs.Instances.{Instance};

    ghost instance: { Instance };

    ghost start: { List ℕ };
}

impl Site for Brand {
    ghost use Rattle.std.specs.Prelude.{[]};
    ghost use Rattle.pop_model.specs.Stacks.Origin.{Given};
    ghost use Rattle.pop_model.specs.Families.Family.{Listed};

    ghost instance = { record {
      stacks = record { origin = Given []; weights = [] };
      family = Listed [];
    } };

    ghost start = { [] };
}
