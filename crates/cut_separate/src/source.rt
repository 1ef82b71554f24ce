ghost use Rattle.std.specs.Prelude.{◌≡◌, ◌≤◌, ◌^◌, length};
ghost use Rattle.ip_core.specs.Rows.{AreRows};
ghost use Rattle.safe_bound.specs.Premises.{AreCuts};
ghost use Rattle.cut_separate.specs.Candidates.{name_of, rows_of};

use ip_core::{Model, Row, RowRef};

/// Which rows are looked at: those of the model, or the cuts.
#[derive(Clone, Copy, Debug, PartialEq, Eq)]
pub enum RowSource {
    ModelRows,
    CutRows,
}

impl RowSource {
    /// These rows.
    pub fn rows<'a>(self, model: &'a Model, cuts: &'a [Row]) -> &'a [Row]
        requires { AreCuts model.now cuts.now }
        ensures value { result.now ≡ rows_of self model.now cuts.now }
        ensures rows { AreRows (length model.now.cols) model.now.root result.now }
        ensures few { length result.now ≤ 2 ^ 30 }
    {
        let _limits = model.parts();
        match self {
            RowSource::ModelRows => model.rows(),
            RowSource::CutRows => cuts,
        }
    }

    /// The name of the row at a place.
    pub fn name(self, place: u32) -> RowRef
        ensures { result ≡ name_of self place }
    {
        match self {
            RowSource::ModelRows => RowRef::Model(place),
            RowSource::CutRows => RowRef::Cut(place),
        }
    }
}
