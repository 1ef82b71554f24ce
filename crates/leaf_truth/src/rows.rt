ghost use Rattle.std.specs.Prelude.{◌≡◌, length, true, false, MatchOption, IfSome};
ghost use Rattle.ip_core.specs.Rows.{IsRow};
ghost use Rattle.row_propagate.specs.Replay.{row_named as row_named_of};
ghost use Rattle.safe_bound.specs.Premises.{AreCuts};
ghost use Rattle.leaf_truth.specs.Steps.{has_row as has_row_of};
ghost use Rattle.leaf_truth.specs.Multipliers.{name_at as name_at_of, place_of as place_of_name};

use ip_core::{Model, Row, RowRef};

/// The row of a name, if there is one.
pub fn row_named<'a>(model: &'a Model, cuts: &'a [Row], name: RowRef) -> Option<&'a Row>
    requires { AreCuts model.now cuts.now }
    ensures known { MatchOption result (has_row_of model.now.rows cuts.now name ≡ false)
        (λ row. (has_row_of model.now.rows cuts.now name ≡ true)
        × (row.now ≡ row_named_of model.now.rows cuts.now name)) }
    ensures row { IfSome result (λ row. IsRow (length model.now.cols) model.now.root row.now) }
{
    let _limits = model.parts();
    match name {
        RowRef::Model(number) => model.rows().get(number as usize),
        RowRef::Cut(number) => cuts.get(number as usize),
    }
}
