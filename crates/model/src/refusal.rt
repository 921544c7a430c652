ghost use Rattle.std.specs.Prelude.{◌≡◌};
ghost use Rattle.model.specs.Stages.{refusal_number};

/// Why a call was refused.
#[derive(Clone, Copy)]
pub enum Refusal {
    /// The end is closed or dead.
    Over,
    /// A record or a turn while a question is open.
    QuestionOpen,
    /// An answer or a look without its question open.
    NotAsked,
    /// A record while a message is ready to be turned.
    MessageReady,
    /// A turn with no message ready.
    NothingReady,
    /// A send before the line is open.
    NotOpen,
    /// A length outside the limits, or a premaster to be wrapped that does not begin 01 01.
    WrongLength,
    /// Too little space in the output or the opening place.
    NoSpace,
    /// A send at the last write number.
    NumbersSpent,
    /// A no that the question does not take.
    NoNotTaken,
    /// A suite twice or unserved, or not 1 to 8 of them.
    BadSuites,
}

impl Refusal {
    /// The refusal's number.
    pub fn number(self) -> u8
        ensures { result ≡ refusal_number self }
    {
        match self {
            Refusal::Over => 1,
            Refusal::QuestionOpen => 2,
            Refusal::NotAsked => 3,
            Refusal::MessageReady => 4,
            Refusal::NothingReady => 5,
            Refusal::NotOpen => 6,
            Refusal::WrongLength => 7,
            Refusal::NoSpace => 8,
            Refusal::NumbersSpent => 9,
            Refusal::NoNotTaken => 10,
            Refusal::BadSuites => 11,
        }
    }
}
