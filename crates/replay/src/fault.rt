use replay_script::{EndName, ScriptFault};
use std::alloc::{AllocError, AllocFailed};
use std::fmt;

/// Why a line of the script has no answer.
#[derive(Clone, Copy)]
pub enum ReplayFault {
    /// The line was not read.
    Script(ScriptFault),
    /// The end has not been set up.
    NotSetUp(EndName),
    NoMemory,
}

impl fmt::Display for ReplayFault {
    fn fmt<W: fmt::Write>(&self, f: &mut fmt::Formatter<W>) -> fmt::Result {
        match self {
            ReplayFault::Script(fault) => write!(f, "{fault}"),
            ReplayFault::NotSetUp(end) => {
                let word = end.word();
                write!(f, "the {word} has not been set up")
            }
            ReplayFault::NoMemory => write!(f, "out of memory"),
        }
    }
}

impl From<ScriptFault> for ReplayFault {
    fn from(value: ScriptFault) -> ReplayFault {
        ReplayFault::Script(value)
    }
}

impl From<AllocError> for ReplayFault {
    fn from(_value: AllocError) -> ReplayFault {
        ReplayFault::NoMemory
    }
}

impl<T: Drop> From<AllocFailed<T>> for ReplayFault {
    fn from(_value: AllocFailed<T>) -> ReplayFault {
        ReplayFault::NoMemory
    }
}
