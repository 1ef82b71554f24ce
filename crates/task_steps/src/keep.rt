ghost use Rattle.std.specs.Prelude.{◌≡◌};
ghost use Rattle.task_steps.specs.Keeps.{number_of};

/// Which child of a split the task goes on with. The other is open, or both are.
#[derive(Clone, Copy, Debug, PartialEq, Eq)]
pub enum Keep {
    Low,
    High,
    Neither,
}

impl Keep {
    /// The number that an entry has for it: 0 for the first child, 1 for the second, and 2 for
    /// none.
    pub fn number(self) -> u8
        ensures { result ≡ number_of self }
    {
        match self {
            Keep::Low => 0,
            Keep::High => 1,
            Keep::Neither => 2,
        }
    }
}
