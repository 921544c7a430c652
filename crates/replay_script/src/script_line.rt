use crate::answer_parts::AnswerOctets;
use crate::names::{EndName, ProtectionKind};
use crate::room::CallRoom;
use model::Question;

/// The octets that an end is handed.
#[derive(Drop)]
pub enum Received {
    /// These.
    Octets(Vec<u8>),
    /// All that the other end has written and that is not yet consumed.
    Waiting,
    /// The first so many of those.
    WaitingFirst(usize),
}

/// The key card's answer.
#[derive(Drop)]
pub enum ScriptAnswer {
    Yes(AnswerOctets),
    No(u8),
}

/// A call that may alter an end and write.
#[derive(Drop)]
pub enum StepCall {
    HandIn(Received),
    Turn,
    Answer(Question, ScriptAnswer),
    Send(Vec<u8>),
    Close,
}

impl StepCall {
    /// The call's name.
    pub fn word(&self) -> &'static str {
        match self {
            StepCall::HandIn(_) => "hand-in",
            StepCall::Turn => "turn",
            StepCall::Answer(_, _) => "answer",
            StepCall::Send(_) => "send",
            StepCall::Close => "close",
        }
    }
}

/// A call of an end, with all that it brings.
#[derive(Drop)]
pub enum ScriptCall {
    SetUp(ProtectionKind, Vec<u16>),
    /// A look at a question, or at the one that is open.
    Look(Option<Question>),
    /// Any other call, with the room that it is given.
    Step(StepCall, CallRoom),
}

/// One line of a script.
#[derive(Drop)]
pub struct ScriptLine {
    pub end: EndName,
    pub call: ScriptCall,
}
