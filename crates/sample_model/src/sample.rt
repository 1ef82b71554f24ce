ghost use Rattle.std.specs.Prelude.{◌≡◌, ◌≤◌, ◌<◌, ◌^◌, length, IfOk};
ghost use Rattle.mps_model.specs.MpsModels.{IsMpsModel};
ghost use Rattle.sample_model.specs.Knapsacks.{IsKnapsack, IsRow};
ghost use Rattle.sample_model.specs.Samples.{col_of, cols_of, entries_of, generated_model, model_of, row_of, rows_of, sample as sample_of};

use crate::knapsack::{Knapsack, draw, greatest_sum};
use crate::whole::{name, numbered_name, whole_decimal};
use ip_core::{Decimal, List, OutOfMemory};
use mps_model::{Limit, MpsCol, MpsEntry, MpsModel, MpsRow, RowKind};
use std::alloc::Global;

/// The rows of a sample model.
const ROWS: usize = 100;

/// The columns of a sample model.
const COLUMNS: usize = 400;

/// A row of these coefficients, which allows a third of what its columns add up to at their upper bounds.
fn row(
    alloc: Global,
    knapsack: &Knapsack,
    at: usize,
    coefficients: &[u64],
) -> Result<MpsRow, OutOfMemory>
    requires knapsack { IsKnapsack knapsack.now }
    requires row { IsRow (length knapsack.now.uppers) coefficients.now }
    ensures { IfOk result (λ row. row ≡ row_of knapsack.now.uppers at coefficients.now) }
{
    let most = greatest_sum(coefficients, knapsack.uppers.as_slice());
    Ok(MpsRow {
        name: numbered_name(alloc, b'R', at)?,
        kind: RowKind::Less,
        rhs: whole_decimal(most / 3),
        range: None,
    })
}

fn rows(alloc: Global, knapsack: &Knapsack) -> Result<List<MpsRow>, OutOfMemory>
    requires { IsKnapsack knapsack.now }
    ensures { IfOk result (λ rows. rows ≡ rows_of knapsack.now.uppers 0 knapsack.now.coefficients) }
{
    let coefficients = knapsack.coefficients.as_slice();
    let mut rows = List::new(alloc);
    for at in 0..coefficients.len() {
        rows.push(row(alloc, knapsack, at, coefficients[at].as_slice())?)?;
    }
    Ok(rows)
}

/// The entries of a column, in rising order of rows.
fn entries(alloc: Global, knapsack: &Knapsack, column: usize) -> Result<List<MpsEntry>, OutOfMemory>
    requires knapsack { IsKnapsack knapsack.now }
    requires known { column < length knapsack.now.uppers }
    ensures { IfOk result (λ entries. entries ≡ entries_of column 0 knapsack.now.coefficients) }
{
    let coefficients = knapsack.coefficients.as_slice();
    let mut entries = List::new(alloc);
    for at in 0..coefficients.len() {
        let coefficient = coefficients[at].as_slice()[column];
        if coefficient != 0 {
            entries.push(MpsEntry {
                row: at as u32,
                value: whole_decimal(coefficient),
            })?;
        }
    }
    Ok(entries)
}

fn column(
    alloc: Global,
    knapsack: &Knapsack,
    at: usize,
    upper: u64,
    cost: u64,
) -> Result<MpsCol, OutOfMemory>
    requires knapsack { IsKnapsack knapsack.now }
    requires known { at < length knapsack.now.uppers }
    requires upper { upper ≤ 3 }
    requires cost { cost ≤ 100 }
    ensures { IfOk result (λ col. col ≡ col_of knapsack.now.coefficients at upper cost) }
{
    Ok(MpsCol {
        name: numbered_name(alloc, b'C', at)?,
        integer: true,
        cost: whole_decimal(cost).negation(),
        entries: entries(alloc, knapsack, at)?,
        low: Limit::Unset,
        high: Limit::At(whole_decimal(upper)),
    })
}

fn columns(alloc: Global, knapsack: &Knapsack) -> Result<List<MpsCol>, OutOfMemory>
    requires { IsKnapsack knapsack.now }
    ensures { let k = knapsack.now in
        IfOk result (λ cols. cols ≡ cols_of k.coefficients 0 k.uppers k.costs) }
{
    let uppers = knapsack.uppers.as_slice();
    let costs = knapsack.costs.as_slice();
    let mut columns = List::new(alloc);
    for at in 0..uppers.len() {
        columns.push(column(alloc, knapsack, at, uppers[at], costs[at])?)?;
    }
    Ok(columns)
}

/// The model of these numbers.
#[tactic(auto, using(crate::proofs::SampleLaws::sample_names))]
fn model(alloc: Global, knapsack: &Knapsack) -> Result<MpsModel, OutOfMemory>
    requires { IsKnapsack knapsack.now }
    ensures value { IfOk result (λ m. m ≡ model_of knapsack.now) }
    ensures kept { IfOk result (λ m. IsMpsModel m) }
{
    Ok(MpsModel {
        name: name(alloc, b"GEN")?,
        maximise: false,
        objective: name(alloc, b"OBJ")?,
        constant: Decimal::zero(),
        rows: rows(alloc, knapsack)?,
        cols: columns(alloc, knapsack)?,
    })
}

/// The sample model of so many rows and columns.
#[tactic(auto, using(crate::proofs::SampleSizes::sample_sizes))]
fn sample(alloc: Global, rows: usize, cols: usize, number: u64) -> Result<MpsModel, OutOfMemory>
    requires rows { rows ≤ 2 ^ 20 }
    requires columns { cols ≤ 2 ^ 20 }
    ensures value { IfOk result (λ m. m ≡ sample_of rows cols number) }
    ensures kept { IfOk result (λ m. IsMpsModel m) }
    ensures rows { IfOk result (λ m. length m.rows ≡ rows) }
    ensures columns { IfOk result (λ m. length m.cols ≡ cols) }
{
    model(alloc, &draw(alloc, rows, cols, number)?)
}

/// The sample model of a number. It minimises, and has 100 rows `R0` to `R99`, each of them at most its right-hand side,
/// and 400 integer columns `C0` to `C399` from 0 on. The one error is want of memory.
///
/// The chain of states z begins with the number. A draw below n first sets z to
/// (z * 6364136223846793005 + 1442695040888963407) modulo 2^64, and then gives z divided by 2^33, rounded down, modulo n.
/// First each column draws its upper bound, 1 plus a draw below 3. Then each column draws the size of its cost, 1 plus a
/// draw below 100, and the cost is negative. Then each row draws for each column: where a draw below 4 is 0, the
/// coefficient is 1 plus a draw below 50, and elsewhere there is none. A row's right-hand side is a third of the sum of
/// coefficient times upper bound, rounded down.
#[tactic(auto, unfolding(crate::specs::Samples::generated_model))]
pub fn generate(alloc: Global, number: u64) -> Result<MpsModel, OutOfMemory>
    ensures value { IfOk result (λ m. m ≡ generated_model number) }
    ensures kept { IfOk result (λ m. IsMpsModel m) }
    ensures rows { IfOk result (λ m. length m.rows ≡ 100) }
    ensures columns { IfOk result (λ m. length m.cols ≡ 400) }
{
    sample(alloc, ROWS, COLUMNS, number)
}
