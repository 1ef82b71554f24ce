use clock_words::BoardSeat;
use stamp_machine::Limits;
use std::collections::LinkedList;
use std::marker::Model;
use std::snapshot::Snapshot;

/// What a pass of the queue knows: its parts of the right to know the whole, the run of the
/// carriers, how many there are, and the slots of those that its worker keeps. No value of it is
/// made.
pub struct Hand<R> {
    pub parts: u64,
    pub run: Option<R>,
    pub count: u32,
    pub holds: LinkedList<u32>,
}

/// The run of a crew's carriers: its tasker, its limits, and the board of its seats. No value of it
/// is made.
pub struct Run<T> {
    pub tasker: Snapshot<T>,
    pub limits: Limits,
    pub seat: Snapshot<BoardSeat>,
}

impl<T> Model for Run<T> {
    ghost use Rattle.task_crew.specs.Crews.{RunView};

    ghost Value = { RunView T };

    ghost view = { λ r. record {
      tasker = r.tasker.value;
      limits = r.limits;
      board = r.seat.value.board;
    } };
}
