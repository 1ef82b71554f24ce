ghost use Rattle.std.specs.Prelude.{◌≡◌, ℕ, ◌+◌, ◌≤◌};

/// Hears of work while it is done, within an allowance that contracts alone see.
pub trait Pulse {
    /// What a pulse carries beside its allowance, and no call changes.
    ghost Rest: { Type 0 };

    /// How much work may still be told.
    ghost allowance: { Self → ℕ };

    /// Whether the pulse can hear of work.
    ghost IsReady: { Self → Type 0 };

    /// What stays as it is in every call.
    ghost rest: { Self → Rest };

    /// Tells of work done, which lowers the allowance by as much.
    fn tick(&mut self, work: u64)
        requires ready { IsReady self.old }
        requires allowed { work ≤ allowance self.old }
        ensures allowance { allowance self.new + work ≡ allowance self.old }
        ensures rest { rest self.new ≡ rest self.old }
        ensures ready { IsReady self.new };
}
