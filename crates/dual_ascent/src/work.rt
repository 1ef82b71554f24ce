ghost use Rattle.std.specs.Prelude.{◌≡◌, ◌≤◌, ◌^◌};
ghost use Rattle.safe_bound.specs.Premises.{AreCuts};
ghost use Rattle.dual_ascent.specs.Ascents.{round_work as round_work_of};

use ip_core::{Model, Row, term_count};

/// The work of a round: one, and three for each term of the rows and cuts.
pub fn round_work(model: &Model, cuts: &[Row]) -> u64
    requires { AreCuts model.now cuts.now }
    ensures value { result ≡ round_work_of model.now cuts.now }
    ensures small { result ≤ 2 ^ 45 }
{
    let rows = model.parts().rows.as_slice();
    3 * (term_count(rows) + term_count(cuts)) + 1
}
