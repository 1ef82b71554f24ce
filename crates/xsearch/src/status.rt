ghost use Rattle.std.specs.Prelude.{◌≡◌};
ghost use Rattle.xsearch.specs.Endings.{code_of, exit_of};

use task_steps::Status;

/// How a run ended, for the system.
#[derive(Clone, Copy, Debug, PartialEq, Eq)]
pub enum ExitStatus {
    Done = 0,
    RefusedWords = 2,
    WorkLimit = 3,
    StoreLimit = 4,
    RefusedInput = 5,
    ShelfFailed = 6,
    SinkFailed = 7,
    NoMemory = 8,
    Rejected = 9,
}

/// The number of a status.
pub fn exit_code(status: ExitStatus) -> u8
    ensures { result ≡ code_of status }
{
    status as u8
}

/// How a run ends that answers so.
pub fn exit_status(status: Status) -> ExitStatus
    ensures { result ≡ exit_of status }
{
    match status {
        Status::Optimal => ExitStatus::Done,
        Status::Infeasible => ExitStatus::Done,
        Status::StoreLimit => ExitStatus::StoreLimit,
        Status::WorkLimit => ExitStatus::WorkLimit,
    }
}
