ghost use Rattle.std.specs.Prelude.{◌≡◌, ◌≤◌, ◌<◌, ◌+◌, true, false, Option, IfOk, OnOk};
ghost use Rattle.ip_core.specs.Seq.{Seq};
ghost use Rattle.work_stamp.specs.Taskers.{CanJoin, IsLawful, Rules, Standing};
ghost use Rattle.work_stamp.specs.declared.entry.Entry.{Entry};
ghost use Rattle.work_stamp.specs.declared.stamped.KeyedEntry.{KeyedEntry};

use crate::{Begin, Chunk, Entry, Key, Pulse};
use ip_core::OutOfMemory;
use std::alloc::Global;

/// A system of tasks for slots that share one history. Each call equals a definition, and the definitions keep laws under
/// which any slots can work with it in any order.
pub trait Tasker {
    /// What the tasks see of a history.
    type View: Send + Drop;

    /// What a slot keeps of its task, and between tasks.
    type Local: Send + Drop;

    /// The definitions of the calls, as plain data.
    ghost rules: { Self → Rules Self.View Self.Local };

    /// Which views and which locals the calls take.
    ghost fits_view: { Self → Self.View → Type 0 };

    ghost fits_local: { Self → Self.Local → Type 0 };

    /// Which entries may follow a history.
    ghost may_follow: { Self → Seq KeyedEntry → Entry → Type 0 };

    /// Whether a history agrees with the slots: none where a slot has ended, else its local and its pending entries.
    ghost agrees: { Self → Seq KeyedEntry → Seq (Option (Standing Self.Local)) → Type 0 };

    /// The view of an empty history.
    fn fresh_view(&self, alloc: Global) -> Result<Self::View, OutOfMemory>
        ensures { IfOk result (λ view. view ≡ (rules self.now).fresh_view) };

    /// A local between tasks, for one of at most 64 slots.
    fn fresh_local(&self, alloc: Global, slot: u32) -> Result<Self::Local, OutOfMemory>
        requires { slot < 64 }
        ensures { IfOk result (λ local. local ≡ (rules self.now).fresh_local slot) };

    /// Appends an entry to the view of a history which it may follow.
    fn absorb(
        &self,
        alloc: Global,
        view: &mut Self::View,
        key: Key,
        entry: &Entry,
    ) -> Result<(), OutOfMemory>
        requires fits { fits_view self.now view.old }
        requires follows { CanJoin (rules self.now) (may_follow self.now) view.old entry.now }
        ensures { OnOk result (view.new ≡ (rules self.now).absorb view.old key entry.now) };

    /// Whether the local is between tasks.
    fn at_start(&self, local: &Self::Local) -> bool
        requires { fits_local self.now local.now }
        ensures { result ≡ (rules self.now).at_start local.now };

    /// What a slot between tasks does next.
    fn begin(
        &self,
        alloc: Global,
        view: &Self::View,
        local: &mut Self::Local,
    ) -> Result<Begin, OutOfMemory>
        requires fits_view { fits_view self.now view.now }
        requires fits_local { fits_local self.now local.old }
        requires start { (rules self.now).at_start local.old ≡ true }
        ensures does { IfOk result (λ does. does ≡ ((rules self.now).begin view.now local.old).does) }
        ensures local { OnOk result (local.new ≡ ((rules self.now).begin view.now local.old).local) };

    /// Works on a part of the slot's task. The pulse is told of work as it goes on, of no more in all than the chunk counts.
    fn chunk<P: Pulse>(
        &self,
        alloc: Global,
        local: &mut Self::Local,
        pulse: &mut P,
    ) -> Result<Chunk, OutOfMemory>
        requires fits { fits_local self.now local.old }
        requires begun { (rules self.now).at_start local.old ≡ false }
        requires ready { P.IsReady pulse.old }
        requires allowed { ((rules self.now).chunk local.old).gives.work ≤ P.allowance pulse.old }
        ensures gives { IfOk result (λ chunk. chunk ≡ ((rules self.now).chunk local.old).gives) }
        ensures local { OnOk result (local.new ≡ ((rules self.now).chunk local.old).local) }
        ensures ready { P.IsReady pulse.new }
        ensures rest { P.rest pulse.new ≡ P.rest pulse.old }
        ensures spent { P.allowance pulse.old ≤ P.allowance pulse.new +
            ((rules self.now).chunk local.old).gives.work };

    /// The laws of the definitions.
    ghost lawful: { (tasker : Self) →
        IsLawful (rules tasker) (fits_view tasker) (fits_local tasker) (may_follow tasker) (agrees tasker) };
}
