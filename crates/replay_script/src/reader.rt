use crate::answer_parts::AnswerOctets;
use crate::fault::ScriptFault;
use crate::names::{CallName, EndName, ProtectionKind};
use crate::room::CallRoom;
use crate::script_line::{Received, ScriptAnswer, ScriptCall, ScriptLine, StepCall};
use crate::suites::read_suites;
use model::Question;
use script_text::{OctetsFault, question_of_number, read_number, read_octets};
use std::alloc::Global;
use std::str::SplitWhitespace;

/// The size of the output, where a line says nothing of it.
const OUT: usize = 4096;
/// The size of the output for a send.
const SEND_OUT: usize = 18437;
/// The size of the opening place.
const PLACE: usize = 18432;

/// The call of a line; none in a line that is empty but for blanks and a comment.
pub fn read_line(heap: Global, text: &str) -> Result<Option<ScriptLine>, ScriptFault> {
    let code = match text.split_once('#') {
        Some((before, _)) => before,
        None => text,
    };
    let mut words = code.split_whitespace();
    let Some(first) = words.next() else {
        return Ok(None);
    };
    let Some(end) = EndName::named(first) else {
        return Err(ScriptFault::UnknownEnd);
    };
    let Some(word) = words.next() else {
        return Err(ScriptFault::UnknownCall);
    };
    let Some(name) = CallName::named(word) else {
        return Err(ScriptFault::UnknownCall);
    };
    let call = read_call(heap, end, name, words)?;
    Ok(Some(ScriptLine { end, call }))
}

fn read_call(
    heap: Global,
    end: EndName,
    name: CallName,
    words: SplitWhitespace<'_>,
) -> Result<ScriptCall, ScriptFault> {
    match name {
        CallName::SetUp => read_set_up(heap, words),
        CallName::HandIn => read_hand_in(heap, end, words),
        CallName::Turn => read_step(heap, StepCall::Turn, OUT, None, words),
        CallName::Look => read_look(words),
        CallName::Answer => read_answer(heap, words),
        CallName::Send => read_send(heap, words),
        CallName::Close => read_step(heap, StepCall::Close, OUT, None, words),
    }
}

fn read_set_up(heap: Global, mut words: SplitWhitespace<'_>) -> Result<ScriptCall, ScriptFault> {
    let Some(kind) = words.next() else {
        return Err(ScriptFault::UnknownProtection);
    };
    let Some(protection) = ProtectionKind::named(kind) else {
        return Err(ScriptFault::UnknownProtection);
    };
    let Some(list) = words.next() else {
        return Err(ScriptFault::NoSuites);
    };
    let suites = read_suites(heap, list)?;
    match words.next() {
        Some(_) => Err(ScriptFault::UnknownOption),
        None => Ok(ScriptCall::SetUp(protection, suites)),
    }
}

fn read_hand_in(
    heap: Global,
    end: EndName,
    mut words: SplitWhitespace<'_>,
) -> Result<ScriptCall, ScriptFault> {
    let Some(text) = words.next() else {
        return Err(ScriptFault::Octets(OctetsFault::Missing));
    };
    let received = read_received(heap, end, text)?;
    read_step(heap, StepCall::HandIn(received), OUT, Some(PLACE), words)
}

/// Octets, or `@` and the other end's name, with a colon and a number for the first so many.
fn read_received(heap: Global, end: EndName, text: &str) -> Result<Received, ScriptFault> {
    let Some(source) = text.strip_prefix('@') else {
        return Ok(Received::Octets(read_octets(heap, text)?));
    };
    let Some((name, count)) = source.split_once(':') else {
        check_other(end, source)?;
        return Ok(Received::Waiting);
    };
    check_other(end, name)?;
    match read_number(count.as_bytes()) {
        Some(limit) => Ok(Received::WaitingFirst(limit)),
        None => Err(ScriptFault::BadNumber),
    }
}

/// Refuses all but the name of the other end.
fn check_other(end: EndName, name: &str) -> Result<(), ScriptFault> {
    match EndName::named(name) {
        Some(other) if !other.is(end) => Ok(()),
        _ => Err(ScriptFault::OwnOctets),
    }
}

fn read_look(mut words: SplitWhitespace<'_>) -> Result<ScriptCall, ScriptFault> {
    let Some(word) = words.next() else {
        return Ok(ScriptCall::Look(None));
    };
    let Some(number) = word.strip_prefix("q=") else {
        return Err(ScriptFault::UnknownOption);
    };
    let question = read_question(number)?;
    match words.next() {
        Some(_) => Err(ScriptFault::UnknownOption),
        None => Ok(ScriptCall::Look(Some(question))),
    }
}

fn read_question(text: &str) -> Result<Question, ScriptFault> {
    let Some(number) = read_number(text.as_bytes()) else {
        return Err(ScriptFault::BadQuestion);
    };
    match question_of_number(number) {
        Some(question) => Ok(question),
        None => Err(ScriptFault::BadQuestion),
    }
}

fn read_answer(heap: Global, mut words: SplitWhitespace<'_>) -> Result<ScriptCall, ScriptFault> {
    let Some(number) = words.next() else {
        return Err(ScriptFault::BadQuestion);
    };
    let question = read_question(number)?;
    match words.next() {
        Some("yes") => read_yes(heap, question, words),
        Some("no") => read_no(heap, question, words),
        _ => Err(ScriptFault::NoYesOrNo),
    }
}

fn read_yes(
    heap: Global,
    question: Question,
    words: SplitWhitespace<'_>,
) -> Result<ScriptCall, ScriptFault> {
    let mut parts = AnswerOctets::new(heap);
    let mut room = CallRoom::new(heap, OUT, None)?;
    for word in words {
        let (name, value) = split_option(word)?;
        if !parts.take_part(heap, name, value)? {
            room.take_option(heap, name, value)?;
        }
    }
    let answer = StepCall::Answer(question, ScriptAnswer::Yes(parts));
    Ok(ScriptCall::Step(answer, room))
}

fn read_no(
    heap: Global,
    question: Question,
    words: SplitWhitespace<'_>,
) -> Result<ScriptCall, ScriptFault> {
    let mut alert = 0u8;
    let mut room = CallRoom::new(heap, OUT, None)?;
    for word in words {
        let (name, value) = split_option(word)?;
        if name == "number" {
            alert = read_alert(value)?;
        } else {
            room.take_option(heap, name, value)?;
        }
    }
    let answer = StepCall::Answer(question, ScriptAnswer::No(alert));
    Ok(ScriptCall::Step(answer, room))
}

fn read_alert(text: &str) -> Result<u8, ScriptFault> {
    match read_number(text.as_bytes()) {
        Some(number) if number < 256 => Ok(number as u8),
        _ => Err(ScriptFault::BadAlert),
    }
}

fn read_send(heap: Global, mut words: SplitWhitespace<'_>) -> Result<ScriptCall, ScriptFault> {
    let Some(text) = words.next() else {
        return Err(ScriptFault::Octets(OctetsFault::Missing));
    };
    let reading = read_octets(heap, text)?;
    read_step(heap, StepCall::Send(reading), SEND_OUT, None, words)
}

/// A call with its room, of all the options that are left.
fn read_step(
    heap: Global,
    step: StepCall,
    out: usize,
    place: Option<usize>,
    words: SplitWhitespace<'_>,
) -> Result<ScriptCall, ScriptFault> {
    let mut room = CallRoom::new(heap, out, place)?;
    for word in words {
        let (name, value) = split_option(word)?;
        room.take_option(heap, name, value)?;
    }
    Ok(ScriptCall::Step(step, room))
}

/// The name and the value of an option.
fn split_option(word: &str) -> Result<(&str, &str), ScriptFault> {
    match word.split_once('=') {
        Some((name, value)) => Ok((name, value)),
        None => Err(ScriptFault::UnknownOption),
    }
}
