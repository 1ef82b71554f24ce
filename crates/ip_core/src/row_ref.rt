ghost use Rattle.std.specs.Prelude.{◌≡◌};
ghost use Rattle.ip_core.specs.RowRefs.{is_before};

/// The name of a row: a row of the model or a cut, each numbered from 0. In the order of names every row of the model
/// comes before every cut, and then the number decides.
#[derive(Clone, Copy, Debug, PartialEq, Eq, PartialOrd, Ord)]
pub enum RowRef {
    Model(u32),
    Cut(u32),
}

impl RowRef {
    /// Whether this name comes before another.
    pub fn is_before(self, other: RowRef) -> bool
        ensures { result ≡ is_before self other }
    {
        self < other
    }
}
