use script_text::{LIMIT, OctetsFault};
use std::alloc::AllocFailed;
use std::fmt;

/// Why a line of a script was not read.
#[derive(Clone, Copy)]
pub enum ScriptFault {
    UnknownEnd,
    UnknownCall,
    UnknownProtection,
    NoSuites,
    BadSuite,
    /// Octets were expected, and not read.
    Octets(OctetsFault),
    BadNumber,
    BadQuestion,
    NoYesOrNo,
    BadAlert,
    OwnOctets,
    UnknownOption,
    NotTaken,
    NoMemory,
}

impl ScriptFault {
    /// The fault in words, but for those that hold a number.
    fn words(&self) -> &'static str {
        match self {
            ScriptFault::UnknownEnd => "a line begins with gauge or office",
            ScriptFault::UnknownCall =>
                "no such call: setup, hand-in, turn, look, answer, send or close is expected",
            ScriptFault::UnknownProtection =>
                "no such record protection: cbc, gcm or pair is expected",
            ScriptFault::NoSuites => "suites are expected, split by commas, or - for none",
            ScriptFault::BadSuite => "a suite is four hexadecimal digits",
            ScriptFault::Octets(_) => "octets are expected",
            ScriptFault::BadNumber => "no such number",
            ScriptFault::BadQuestion => "a question has a number from 1 to 6",
            ScriptFault::NoYesOrNo => "yes or no is expected",
            ScriptFault::BadAlert => "the number of a no is from 0 to 255",
            ScriptFault::OwnOctets => "an end is handed what the other end has written",
            ScriptFault::UnknownOption => "no such option: a name, = and a value are expected",
            ScriptFault::NotTaken => "this call does not take that option",
            ScriptFault::NoMemory => "out of memory",
        }
    }
}

impl fmt::Display for ScriptFault {
    fn fmt<W: fmt::Write>(&self, f: &mut fmt::Formatter<W>) -> fmt::Result {
        match self {
            ScriptFault::Octets(fault) => write!(f, "{fault}"),
            ScriptFault::BadNumber => write!(f, "a decimal number of at most {LIMIT} is expected"),
            other => {
                let words = other.words();
                write!(f, "{words}")
            }
        }
    }
}

impl<T: Drop> From<AllocFailed<T>> for ScriptFault {
    fn from(_value: AllocFailed<T>) -> ScriptFault {
        ScriptFault::NoMemory
    }
}

impl From<OctetsFault> for ScriptFault {
    fn from(value: OctetsFault) -> ScriptFault {
        ScriptFault::Octets(value)
    }
}
