ghost use Rattle.std.specs.Prelude.{◌≡◌, ◌<◌, length};
ghost use Rattle.safe_bound.specs.Bounds.{all_rows, row_of};

use ip_core::{Model, Row};

/// Row `row` of the rows of the model and then the cuts.
pub fn row_at<'a>(model: &'a Model, cuts: &'a [Row], row: usize) -> &'a Row
    requires { row < length (all_rows model.now cuts.now) }
    ensures { result.now ≡ row_of model.now cuts.now row }
{
    let rows = model.rows();
    if row < rows.len() {
        &rows[row]
    } else {
        &cuts[row - rows.len()]
    }
}
