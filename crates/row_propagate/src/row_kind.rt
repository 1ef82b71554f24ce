ghost use Rattle.std.specs.Prelude.{◌≡◌};
ghost use Rattle.row_propagate.specs.Passes.{name_of};

use ip_core::RowRef;

/// Whether rows are those of the model or cuts.
#[derive(Clone, Copy, Debug, PartialEq, Eq)]
pub enum RowKind {
    ModelRow,
    CutRow,
}

impl RowKind {
    /// The name of the row of a number.
    pub fn name(self, index: u32) -> RowRef
        ensures { result ≡ name_of self index }
    {
        match self {
            RowKind::ModelRow => RowRef::Model(index),
            RowKind::CutRow => RowRef::Cut(index),
        }
    }
}
