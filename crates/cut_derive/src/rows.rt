ghost use Rattle.std.specs.Prelude.{◌≡◌, length, true};
ghost use Rattle.ip_core.specs.Rows.{IsRow};
ghost use Rattle.row_propagate.specs.Replay.{row_named};
ghost use Rattle.safe_bound.specs.Premises.{AreCuts};
ghost use Rattle.leaf_truth.specs.Steps.{has_row as has_row_of};

use ip_core::{Model, Row, RowRef};

/// Whether there is a row of this name.
pub fn has_row(model: &Model, cuts: &[Row], name: RowRef) -> bool
    ensures { result ≡ has_row_of model.now.rows cuts.now name }
{
    match name {
        RowRef::Model(number) => (number as usize) < model.rows().len(),
        RowRef::Cut(number) => (number as usize) < cuts.len(),
    }
}

/// The row of a name, which exists.
pub fn known_row<'a>(model: &'a Model, cuts: &'a [Row], name: RowRef) -> &'a Row
    requires cuts { AreCuts model.now cuts.now }
    requires known { has_row_of model.now.rows cuts.now name ≡ true }
    ensures value { result.now ≡ row_named model.now.rows cuts.now name }
    ensures row { IsRow (length model.now.cols) model.now.root result.now }
{
    let _limits = model.parts();
    match name {
        RowRef::Model(number) => &model.rows()[number as usize],
        RowRef::Cut(number) => &cuts[number as usize],
    }
}
