use crate::local::Local;
use crate::search::Search;
use crate::slot::{begin, chunk, fresh_local, is_at_start};
use ip_core::OutOfMemory;
use node_pool::Pool;
use std::alloc::Global;
use work_stamp::{Begin, Chunk, Entry, Key, Pulse, Tasker};

impl Tasker for Search {
    ghost use Rattle.task_steps.specs.Agrees.{Agrees, MayFollowIn};
    ghost use Rattle.task_steps.specs.Fits.{FitsLocal, FitsView};
    ghost use Rattle.task_steps.specs.Lawful.{search_law};
    ghost use Rattle.task_steps.specs.Rules.{rules as rules_of};

    type View = Pool;

    type Local = Local;

    ghost rules = { λ search. rules_of search.model search.settings };

    ghost fits_view = { λ search view. FitsView search.model view };

    ghost fits_local = { λ search local. FitsLocal search.model local };

    ghost may_follow = { λ search history entry.
        MayFollowIn search.model search.settings history entry };

    ghost agrees = { λ search history slots. Agrees search.model search.settings history slots };

    ghost lawful = { λ search. search_law search.model search.settings search.valid search.paired };

    fn fresh_view(&self, alloc: Global) -> Result<Pool, OutOfMemory> {
        Pool::new(alloc, self.model(), self.settings())
    }

    fn fresh_local(&self, alloc: Global, slot: u32) -> Result<Local, OutOfMemory> {
        Ok(fresh_local(alloc, slot))
    }

    fn absorb(
        &self,
        alloc: Global,
        view: &mut Pool,
        _key: Key,
        entry: &Entry,
    ) -> Result<(), OutOfMemory> {
        view.absorb(alloc, self.model(), entry)
    }

    fn at_start(&self, local: &Local) -> bool {
        is_at_start(local)
    }

    fn begin(&self, alloc: Global, view: &Pool, local: &mut Local) -> Result<Begin, OutOfMemory> {
        begin(alloc, self.model(), view, local)
    }

    fn chunk<P: Pulse>(
        &self,
        alloc: Global,
        local: &mut Local,
        pulse: &mut P,
    ) -> Result<Chunk, OutOfMemory> {
        chunk(alloc, self.model(), local, pulse)
    }
}
