use ip_core::OutOfMemory;
use std::alloc::Global;
use std::sync::atomic::{AtomicU64, Ordering};
use work_stamp::{Begin, Chunk, Entry, Key, Pulse, Tasker};

/// A system of tasks whose chunks are counted.
#[derive(Drop)]
pub(crate) struct CountedTasks<'a, T: Tasker> {
    inner: &'a T,
    chunks: AtomicU64,
}

impl<'a, T: Tasker> CountedTasks<'a, T> {
    /// The tasks of this system, of which no chunk has begun.
    pub(crate) fn new(inner: &'a T) -> CountedTasks<'a, T> {
        CountedTasks {
            inner,
            chunks: AtomicU64::new(0),
        }
    }

    /// How many chunks have begun.
    pub(crate) fn chunks(&self) -> u64 {
        self.chunks.load(Ordering::SeqCst)
    }
}

impl<'a, T: Tasker> Tasker for CountedTasks<'a, T> {
    type View = T::View;

    type Local = T::Local;

    ghost rules = { λ tasks. T.rules tasks.inner.now };

    ghost fits_view = { λ tasks view. T.fits_view tasks.inner.now view };

    ghost fits_local = { λ tasks local. T.fits_local tasks.inner.now local };

    ghost may_follow = { λ tasks history entry. T.may_follow tasks.inner.now history entry };

    ghost agrees = { λ tasks history slots. T.agrees tasks.inner.now history slots };

    ghost lawful = { λ tasks. T.lawful tasks.inner.now };

    fn fresh_view(&self, alloc: Global) -> Result<T::View, OutOfMemory> {
        self.inner.fresh_view(alloc)
    }

    fn fresh_local(&self, alloc: Global, slot: u32) -> Result<T::Local, OutOfMemory> {
        self.inner.fresh_local(alloc, slot)
    }

    fn absorb(
        &self,
        alloc: Global,
        view: &mut T::View,
        key: Key,
        entry: &Entry,
    ) -> Result<(), OutOfMemory> {
        self.inner.absorb(alloc, view, key, entry)
    }

    fn at_start(&self, local: &T::Local) -> bool {
        self.inner.at_start(local)
    }

    fn begin(
        &self,
        alloc: Global,
        view: &T::View,
        local: &mut T::Local,
    ) -> Result<Begin, OutOfMemory> {
        self.inner.begin(alloc, view, local)
    }

    fn chunk<P: Pulse>(
        &self,
        alloc: Global,
        local: &mut T::Local,
        pulse: &mut P,
    ) -> Result<Chunk, OutOfMemory> {
        self.chunks.fetch_add(1, Ordering::SeqCst);
        self.inner.chunk(alloc, local, pulse)
    }
}
