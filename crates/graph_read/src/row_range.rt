ghost use Rattle.std.specs.Prelude.{◌↔◌, IsTrue};
ghost use Rattle.graph_read.specs.Ranges.{IsWithin};

/// The rows from `first` up to below `end`. Rows count from 0.
#[derive(Clone, Copy)]
pub struct RowRange {
    pub first: u32,
    pub end: u32,
}

impl RowRange {
    ghost use Rattle.std.specs.Prelude.{◌↔◌, IsTrue};
    ghost use Rattle.graph_read.specs.Ranges.{IsWithin};

    /// Whether a row is in the range.
    pub fn has(self, row: u32) -> bool
        ensures { IsTrue result ↔ IsWithin self row }
    {
        self.first <= row && row < self.end
    }
}
