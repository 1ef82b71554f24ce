ghost use Rattle.std.specs.Prelude.{◌≡◌, ◌<◌, ◌≤◌, ◌^◌, IfOk, OnOk};
ghost use Rattle.sample_model.specs.Draws.{after, draw_below, next, positive_draws as positive_draws_from};

use ip_core::{List, OutOfMemory};
use std::alloc::Global;

/// A chain of draws, seen as its state.
#[derive(Clone, Copy, Debug)]
pub struct Draws {
    pub state: u64,
}

/// The state that follows a state.
fn next_state(state: u64) -> u64
    ensures { result ≡ next state }
{
    state
        .wrapping_mul(6_364_136_223_846_793_005)
        .wrapping_add(1_442_695_040_888_963_407)
}

impl Draws {
    /// Takes the next state, and gives its number below `n`.
    pub fn below(&mut self, n: u64) -> u64
        requires { 0 < n }
        ensures value { result ≡ draw_below n self.old.state }
        ensures state { self.new.state ≡ next self.old.state }
        ensures small { result < n }
    {
        self.state = next_state(self.state);
        (self.state >> 33) % n
    }
}

/// So many draws below `n`, 1 added to each.
pub fn positive_draws(
    alloc: Global,
    draws: &mut Draws,
    n: u64,
    count: usize,
) -> Result<List<u64>, OutOfMemory>
    requires some { 0 < n }
    requires small { n ≤ 2 ^ 32 }
    ensures value { IfOk result (λ xs. xs ≡ positive_draws_from n count draws.old.state) }
    ensures state { OnOk result (draws.new.state ≡ after next count draws.old.state) }
{
    let mut numbers = List::new(alloc);
    for _at in 0..count {
        numbers.push(1 + draws.below(n))?;
    }
    Ok(numbers)
}
