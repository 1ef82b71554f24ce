use ip_core::OutOfMemory;
use node_pool::Pool;
use std::alloc::Global;
use std::hint::spin_loop;
use std::sync::atomic::{AtomicBool, Ordering};
use task_steps::{Local, Search};
use work_stamp::{Begin, Chunk, Entry, Key, Pulse, Tasker};

/// A search whose first chunk of slot 0 doesn't end before slot 1 has looked for a task, or so many
/// turns of a loop are over. The pulse has heard of the chunk's work before the loop.
#[derive(Drop)]
pub(crate) struct WatchedSearch<'a> {
    search: &'a Search,
    turns: u64,
    has_waited: AtomicBool,
    has_begun: AtomicBool,
    was_seen: AtomicBool,
}

impl<'a> WatchedSearch<'a> {
    /// The tasks of a search, of which no chunk has begun.
    pub(crate) fn new(search: &'a Search, turns: u64) -> WatchedSearch<'a> {
        WatchedSearch {
            search,
            turns,
            has_waited: AtomicBool::new(false),
            has_begun: AtomicBool::new(false),
            was_seen: AtomicBool::new(false),
        }
    }

    /// Whether slot 1 looked for a task while the first chunk of slot 0 ran.
    pub(crate) fn was_seen(&self) -> bool {
        self.was_seen.load(Ordering::SeqCst)
    }

    /// Waits until slot 1 looks for a task.
    fn wait_for_begin(&self) {
        for _ in 0..self.turns {
            if self.has_begun.load(Ordering::SeqCst) {
                self.was_seen.store(true, Ordering::SeqCst);
                return;
            }
            spin_loop();
        }
    }
}

impl<'a> Tasker for WatchedSearch<'a> {
    ghost use Rattle.task_steps.specs.Agrees.{Agrees, MayFollowIn};
    ghost use Rattle.task_steps.specs.Fits.{FitsLocal, FitsView};
    ghost use Rattle.task_steps.specs.Lawful.{search_law};
    ghost use Rattle.task_steps.specs.Rules.{rules as rules_of};

    type View = Pool;

    type Local = Local;

    ghost rules = { λ watched. rules_of watched.search.now.model watched.search.now.settings };

    ghost fits_view = { λ watched view. FitsView watched.search.now.model view };

    ghost fits_local = { λ watched local. FitsLocal watched.search.now.model local };

    ghost may_follow = { λ watched history entry.
        MayFollowIn watched.search.now.model watched.search.now.settings history entry };

    ghost agrees = { λ watched history slots.
        Agrees watched.search.now.model watched.search.now.settings history slots };

    ghost lawful = { λ watched. search_law watched.search.now.model watched.search.now.settings
        watched.search.now.valid watched.search.now.paired };

    fn fresh_view(&self, alloc: Global) -> Result<Pool, OutOfMemory> {
        self.search.fresh_view(alloc)
    }

    fn fresh_local(&self, alloc: Global, slot: u32) -> Result<Local, OutOfMemory> {
        self.search.fresh_local(alloc, slot)
    }

    fn absorb(
        &self,
        alloc: Global,
        view: &mut Pool,
        key: Key,
        entry: &Entry,
    ) -> Result<(), OutOfMemory> {
        self.search.absorb(alloc, view, key, entry)
    }

    fn at_start(&self, local: &Local) -> bool {
        self.search.at_start(local)
    }

    fn begin(&self, alloc: Global, view: &Pool, local: &mut Local) -> Result<Begin, OutOfMemory> {
        if local.slot == 1 {
            self.has_begun.store(true, Ordering::SeqCst);
        }
        self.search.begin(alloc, view, local)
    }

    fn chunk<P: Pulse>(
        &self,
        alloc: Global,
        local: &mut Local,
        pulse: &mut P,
    ) -> Result<Chunk, OutOfMemory> {
        let waits = local.slot == 0 && !self.has_waited.swap(true, Ordering::SeqCst);
        let chunk = self.search.chunk(alloc, local, pulse)?;
        if waits {
            self.wait_for_begin();
        }
        Ok(chunk)
    }
}
