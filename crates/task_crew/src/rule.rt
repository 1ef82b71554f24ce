//! The rule of the queue of carriers, and its kinds of step.
use crate::hand::{Hand, Run};
use crate::item::QueueItem;
use crossbeam_queue::RuledArrayQueue;
use crossbeam_queue::protocol::{Join, Lesson, Outcome, Protocol, Split};
use work_stamp::Tasker;

/// The queue of the carriers that no worker keeps.
pub(crate) type Queue<T> = RuledArrayQueue<QueueItem<T>, Hand<Run<T>>, EachOnce>;

/// A pass of the queue, with its view.
pub(crate) type Pass<T> = crossbeam_queue::Pass<QueueItem<T>, Hand<Run<T>>>;

/// Each slot is once in the queue or with a worker.
pub(crate) struct EachOnce;

impl<T: Tasker> Protocol<QueueItem<T>, Hand<Run<T>>> for EachOnce {
    ghost use Rattle.task_crew.specs.Crews.{AreKept};
    ghost use Rattle.task_crew.specs.Hands.{first_hand};

    ghost holds = { AreKept };

    ghost first = { first_hand };
}

/// A new carrier is put in.
pub(crate) struct Enter;

impl<T: Tasker> Outcome<QueueItem<T>, Hand<Run<T>>> for Enter {
    ghost use Rattle.task_crew.specs.Crews.{HasEntered};

    ghost then = { HasEntered };
}

impl<T: Tasker> Lesson<QueueItem<T>, Hand<Run<T>>> for Enter {
    ghost use Rattle.task_crew.specs.Crews.{HasRoom};

    ghost fact = { HasRoom };
}

/// A carrier is taken out.
pub(crate) struct Leave;

impl<T: Tasker> Outcome<QueueItem<T>, Hand<Run<T>>> for Leave {
    ghost use Rattle.task_crew.specs.Crews.{HasLeft};

    ghost then = { HasLeft };
}

impl<T: Tasker> Lesson<QueueItem<T>, Hand<Run<T>>> for Leave {
    ghost use Rattle.task_crew.specs.Crews.{HasAll};

    ghost fact = { HasAll };
}

/// A carrier that was taken out is put back.
pub(crate) struct Return;

impl<T: Tasker> Outcome<QueueItem<T>, Hand<Run<T>>> for Return {
    ghost use Rattle.task_crew.specs.Crews.{HasReturned};

    ghost then = { HasReturned };
}

impl<T: Tasker> Lesson<QueueItem<T>, Hand<Run<T>>> for Return {
    ghost use Rattle.task_crew.specs.Crews.{HasRoom};

    ghost fact = { HasRoom };
}

/// A pass gives all its parts but one to a new one.
pub(crate) struct Share;

impl<R> Split<Hand<R>> for Share {
    ghost use Rattle.task_crew.specs.Hands.{kept_part, other_parts};

    ghost left = { kept_part };

    ghost right = { other_parts };
}

/// A pass takes in another one.
pub(crate) struct TakeIn;

impl<R> Join<Hand<R>> for TakeIn {
    ghost use Rattle.task_crew.specs.Hands.{both, spent};

    ghost both = { both };

    ghost spent = { spent };
}
