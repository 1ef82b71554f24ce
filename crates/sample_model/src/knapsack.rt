ghost use Rattle.std.specs.Prelude.{◌≡◌, ◌≤◌, ◌*◌, ◌^◌, length, IfOk, OnOk};
ghost use Rattle.sample_model.specs.Draws.{AreAtMost, after};
ghost use Rattle.sample_model.specs.Knapsacks.{AreRows, IsKnapsack, IsRow, coefficient as coefficient_of, greatest_sum as greatest_sum_of, knapsack, matrix as matrix_of, past_place, row_coefficients as row_coefficients_of};

use crate::draws::{Draws, positive_draws};
use ip_core::{List, OutOfMemory};
use std::alloc::Global;

/// The greatest upper bound of a column.
const MAX_UPPER: u64 = 3;

/// The greatest size of a cost.
const MAX_COST: u64 = 100;

/// The greatest coefficient.
const MAX_COEFFICIENT: u64 = 50;

/// One place of so many has a coefficient.
const PLACES: u64 = 4;

/// The numbers of a sample model: for each column its upper bound and the size of its cost, and for each row its
/// coefficients, column by column, where 0 stands for none.
#[derive(Debug, Drop)]
pub struct Knapsack {
    pub uppers: List<u64>,
    pub costs: List<u64>,
    pub coefficients: List<List<u64>>,
}

/// The coefficient of a place, or 0 where it has none.
fn coefficient(draws: &mut Draws) -> u64
    ensures value { result ≡ coefficient_of draws.old.state }
    ensures state { draws.new.state ≡ past_place draws.old.state }
{
    if draws.below(PLACES) == 0 {
        1 + draws.below(MAX_COEFFICIENT)
    } else {
        0
    }
}

/// The coefficients of a row, column by column.
fn row_coefficients(alloc: Global, draws: &mut Draws, cols: usize) -> Result<List<u64>, OutOfMemory>
    ensures value { IfOk result (λ row. row ≡ row_coefficients_of cols draws.old.state) }
    ensures state { OnOk result (draws.new.state ≡ after past_place cols draws.old.state) }
{
    let mut row = List::new(alloc);
    for _at in 0..cols {
        row.push(coefficient(draws))?;
    }
    Ok(row)
}

/// The coefficients of all rows, row by row.
fn matrix(
    alloc: Global,
    draws: &mut Draws,
    rows: usize,
    cols: usize,
) -> Result<List<List<u64>>, OutOfMemory>
    ensures { IfOk result (λ m. m ≡ matrix_of rows cols draws.old.state) }
{
    let mut matrix = List::new(alloc);
    for _at in 0..rows {
        matrix.push(row_coefficients(alloc, draws, cols)?)?;
    }
    Ok(matrix)
}

/// The numbers of so many rows and columns that are drawn from a number.
#[tactic(auto, using(crate::proofs::KnapsackLaws::knapsack_is))]
pub fn draw(alloc: Global, rows: usize, cols: usize, number: u64) -> Result<Knapsack, OutOfMemory>
    requires rows { rows ≤ 2 ^ 20 }
    requires columns { cols ≤ 2 ^ 20 }
    ensures value { IfOk result (λ k. k ≡ knapsack rows cols number) }
    ensures kept { IfOk result (λ k. IsKnapsack k) }
{
    let mut draws = Draws { state: number };
    let uppers = positive_draws(alloc, &mut draws, MAX_UPPER, cols)?;
    let costs = positive_draws(alloc, &mut draws, MAX_COST, cols)?;
    let coefficients = matrix(alloc, &mut draws, rows, cols)?;
    Ok(Knapsack {
        uppers,
        costs,
        coefficients,
    })
}

/// What a row's columns add up to at their upper bounds.
pub fn greatest_sum(coefficients: &[u64], uppers: &[u64]) -> u64
    requires row { IsRow (length uppers.now) coefficients.now }
    requires uppers { AreAtMost 3 uppers.now }
    requires short { length uppers.now ≤ 2 ^ 20 }
    ensures value { result ≡ greatest_sum_of coefficients.now uppers.now }
    ensures small { result ≤ 150 * length uppers.now }
{
    let mut sum = 0;
    for at in 0..coefficients.len() {
        sum += coefficients[at] * uppers[at];
    }
    sum
}
