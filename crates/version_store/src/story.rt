ghost use Rattle.std.specs.Prelude.{◌≡◌};
ghost use Rattle.clock_words.specs.Stories.{AreRising};
ghost use Rattle.stamp_machine.specs.Limits.{AreLimits};
ghost use Rattle.version_store.specs.Stories.{run_lists};

use clock_words::Story;
use stamp_machine::Limits;
use work_stamp::Tasker;

/// The story of a run: of each slot the words of the entries that it publishes in the history of
/// the machine on one thread, each with the stamp of its entry.
pub struct RunStory<'a, T: Tasker> {
    tasker: &'a T,
    limits: Limits,
    pub ghost ranges: { AreLimits limits },
    pub ghost rises: { AreRising (run_lists (T.rules tasker.now) limits) },
}

impl<'a, T: Tasker> RunStory<'a, T> {
    /// The story of a tasker's run under limits. It takes no memory.
    pub fn of(tasker: &'a T, limits: Limits) -> RunStory<'a, T>
        requires { AreLimits limits }
        ensures tasker { result.tasker.now ≡ tasker.now }
        ensures limits { result.limits ≡ limits }
    {
        RunStory { tasker, limits }
    }
}

impl<'a, T: Tasker> Drop for RunStory<'a, T> {
    fn drop(self) {
        let Self {
            tasker: _,
            limits: _,
        } = self;
    }
}

impl<'a, T: Tasker> Story for RunStory<'a, T> {
    ghost lists = { λ s. run_lists (T.rules s.tasker.now) s.limits };

    ghost rising = { λ s. s.rises };
}
