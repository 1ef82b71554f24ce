ghost use Rattle.std.specs.Prelude.{◌≡◌, ◌≤◌, OnOk, IsErrOf};
ghost use Rattle.xsearch_words.specs.Faults.{HasRisen, next_count};
ghost use Rattle.xsearch_words.specs.Sink.{GrowsBy, GrowsByFront, SinkState};

use crate::WriteError;
use std::alloc::Global;

/// Where text goes out.
pub trait Sink {
    /// What the sink tells: the bytes gone out, where it tells them, how many calls were made and
    /// how many failed. The counts stand still at 2^64 - 1.
    ghost state: { Self → SinkState };

    /// Appends bytes to those gone out.
    fn put(&mut self, alloc: Global, bytes: &[u8]) -> Result<(), WriteError>
        ensures ok { OnOk result
            (GrowsBy (state self.old).out (state self.new).out bytes.now) }
        ensures failed { IsErrOf result WriteError.Failed →
            HasRisen (state self.old).faults (state self.new).faults }
        ensures front { IsErrOf result WriteError.Failed →
            GrowsByFront (state self.old).out (state self.new).out bytes.now }
        ensures memory { IsErrOf result WriteError.Memory →
            (state self.new).out ≡ (state self.old).out }
        ensures quiet { ¬ IsErrOf result WriteError.Failed →
            (state self.new).faults ≡ (state self.old).faults }
        ensures count { (state self.old).faults ≤ (state self.new).faults }
        ensures calls { (state self.new).calls ≡ next_count (state self.old).calls };
}
