ghost use Rattle.std.specs.Prelude.{◌≡◌};
ghost use Rattle.model.specs.Stages.{asks, asking};
ghost use Rattle.model.specs.Refusals.{asked_as};
ghost use Rattle.model.specs.Refusals.{hand_in_refusal, turn_refusal, look_refusal, answer_refusal, send_refusal, close_refusal};

use crate::bounds::{PLACE_SPACE, REPLY_SPACE, SEND_LIMIT, SEND_SPACE};
use model::{Question, Refusal, Stage};
use protection::{CONTENT_LIMIT, FRESH_SIZE};

/// Whether a question is open at a stage.
fn is_asking(stage: Stage) -> bool
    ensures { result ≡ asking stage }
{
    stage.question().is_some()
}

/// Whether the question named is the one that is open at a stage.
fn is_asked(stage: Stage, question: Question) -> bool
    ensures { result ≡ asked_as (asks stage) question }
{
    match stage.question() {
        Some(open) => open.number() == question.number(),
        None => false,
    }
}

/// Why a hand in is refused: at a stage, with a message ready or not, and with these lengths of what the call brings.
pub fn hand_in_refusal(
    stage: Stage,
    ready: bool,
    fresh: usize,
    out: usize,
    place: usize,
) -> Option<Refusal>
    ensures { result ≡ hand_in_refusal stage ready fresh out place }
{
    if stage.is_over() {
        Some(Refusal::Over)
    } else if is_asking(stage) {
        Some(Refusal::QuestionOpen)
    } else if ready {
        Some(Refusal::MessageReady)
    } else if fresh != FRESH_SIZE {
        Some(Refusal::WrongLength)
    } else if out < REPLY_SPACE || place < PLACE_SPACE {
        Some(Refusal::NoSpace)
    } else {
        None
    }
}

/// Why a turn is refused.
pub fn turn_refusal(stage: Stage, ready: bool, fresh: usize, out: usize) -> Option<Refusal>
    ensures { result ≡ turn_refusal stage ready fresh out }
{
    if stage.is_over() {
        Some(Refusal::Over)
    } else if is_asking(stage) {
        Some(Refusal::QuestionOpen)
    } else if !ready {
        Some(Refusal::NothingReady)
    } else if fresh != FRESH_SIZE {
        Some(Refusal::WrongLength)
    } else if out < REPLY_SPACE {
        Some(Refusal::NoSpace)
    } else {
        None
    }
}

/// Why a look at what a question is about is refused.
pub fn look_refusal(stage: Stage, question: Question) -> Option<Refusal>
    ensures { result ≡ look_refusal stage question }
{
    if stage.is_over() {
        Some(Refusal::Over)
    } else if !is_asked(stage, question) {
        Some(Refusal::NotAsked)
    } else {
        None
    }
}

/// Why an answer is refused: whether its parts have the right lengths, and whether the question takes it, is told.
pub fn answer_refusal(
    stage: Stage,
    question: Question,
    lengths_right: bool,
    answer_taken: bool,
    fresh: usize,
    out: usize,
) -> Option<Refusal>
    ensures { result ≡ answer_refusal stage question lengths_right answer_taken fresh out }
{
    if stage.is_over() {
        Some(Refusal::Over)
    } else if !is_asked(stage, question) {
        Some(Refusal::NotAsked)
    } else if fresh != FRESH_SIZE || !lengths_right {
        Some(Refusal::WrongLength)
    } else if out < REPLY_SPACE {
        Some(Refusal::NoSpace)
    } else if !answer_taken {
        Some(Refusal::NoNotTaken)
    } else {
        None
    }
}

/// Why a send is refused: at a write number, with so many octets of content.
pub fn send_refusal(
    stage: Stage,
    writes: u64,
    content: usize,
    fresh: usize,
    out: usize,
) -> Option<Refusal>
    ensures { result ≡ send_refusal stage writes content fresh out }
{
    if stage.is_over() {
        Some(Refusal::Over)
    } else if !stage.is_open() {
        Some(Refusal::NotOpen)
    } else if fresh != FRESH_SIZE || content < 1 || content > CONTENT_LIMIT {
        Some(Refusal::WrongLength)
    } else if out < content + SEND_SPACE {
        Some(Refusal::NoSpace)
    } else if writes >= SEND_LIMIT {
        Some(Refusal::NumbersSpent)
    } else {
        None
    }
}

/// Why a close is refused.
pub fn close_refusal(stage: Stage, fresh: usize, out: usize) -> Option<Refusal>
    ensures { result ≡ close_refusal stage fresh out }
{
    if stage.is_over() {
        Some(Refusal::Over)
    } else if fresh != FRESH_SIZE {
        Some(Refusal::WrongLength)
    } else if out < REPLY_SPACE {
        Some(Refusal::NoSpace)
    } else {
        None
    }
}
