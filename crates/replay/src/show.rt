//! Answers as lines of text.
use crate::calls::{CallResult, HandedIn};
use endpoint::Shown;
use records::{Fault, Layer};
use std::alloc::AllocError;
use std::fmt::Write;

/// Octets in hexadecimal, `-` for none.
fn octets(text: &mut String, list: &[u8]) -> Result<(), AllocError> {
    if list.is_empty() {
        return write!(text, "-");
    }
    for x in list {
        write!(text, "{x:02x}")?;
    }
    Ok(())
}

/// Whether all octets of a list are this one.
fn all_are(list: &[u8], octet: u8) -> bool {
    for x in list {
        if *x != octet {
            return false;
        }
    }
    true
}

/// A list in two, at a place or its end.
fn divide(list: &[u8], at: usize) -> (&[u8], &[u8]) {
    let n = at.min(list.len());
    (&list[..n], &list[n..])
}

fn layer_name(layer: Layer) -> &'static str {
    match layer {
        Layer::Record => "record",
        Layer::Content => "content",
        Layer::Message => "message",
        Layer::Stage => "stage",
        Layer::Card => "card",
    }
}

fn fault(text: &mut String, found: Option<Fault>) -> Result<(), AllocError> {
    match found {
        Some(fault) => {
            let alert = fault.alert.number();
            let layer = layer_name(fault.layer);
            write!(text, " fault={alert}/{layer}")
        }
        None => write!(text, " fault=-"),
    }
}

/// What every answer begins with: the end, the call, the refusal and the stage.
fn head(
    text: &mut String,
    end: &str,
    call: &str,
    refusal: u8,
    stage: u8,
) -> Result<(), AllocError> {
    write!(text, "{end} {call} refusal={refusal} stage={stage}")
}

fn handed_in(text: &mut String, handed: HandedIn) -> Result<(), AllocError> {
    let consumed = handed.consumed;
    let released = handed.released;
    let more = if handed.more { 1 } else { 0 };
    write!(text, " consumed={consumed} released={released} more={more}")
}

/// The output: what was written, and whether the rest is as it was.
fn output(text: &mut String, out: &[u8], written: usize, fill: u8) -> Result<(), AllocError> {
    let (front, rest) = divide(out, written);
    write!(text, " out=")?;
    octets(text, front)?;
    let kept = if all_are(rest, fill) {
        "kept"
    } else {
        "changed"
    };
    write!(text, " rest={kept}")
}

/// The opening place: what was released, and what stands behind it.
fn opening_place(
    text: &mut String,
    place: &[u8],
    released: usize,
    fill: u8,
) -> Result<(), AllocError> {
    let (front, rest) = divide(place, released);
    write!(text, " place=")?;
    octets(text, front)?;
    let tail = if all_are(rest, 0) {
        "zero"
    } else if all_are(rest, fill) {
        "kept"
    } else {
        "mixed"
    };
    write!(text, " tail={tail}")
}

/// The output and the opening place of a call, which held one octet throughout before it.
#[derive(Clone, Copy)]
pub struct Places<'a> {
    pub out: &'a [u8],
    pub place: &'a [u8],
    pub fill: u8,
}

/// The answer to a call.
pub fn answer(
    text: &mut String,
    end: &str,
    call: &str,
    done: CallResult,
    places: Places<'_>,
) -> Result<(), AllocError> {
    head(text, end, call, done.refusal, done.stage)?;
    let written = done.written;
    write!(text, " written={written}")?;
    fault(text, done.fault)?;
    match done.handed {
        Some(handed) => {
            handed_in(text, handed)?;
            output(text, places.out, written, places.fill)?;
            opening_place(text, places.place, handed.released, places.fill)
        }
        None => output(text, places.out, written, places.fill),
    }
}

/// The answer to a set-up.
pub fn set_up(text: &mut String, end: &str, refusal: u8, stage: u8) -> Result<(), AllocError> {
    head(text, end, "setup", refusal, stage)?;
    write!(text, " written=0 fault=-")
}

/// The answer to a look that is refused.
pub fn no_look(text: &mut String, end: &str, refusal: u8, stage: u8) -> Result<(), AllocError> {
    head(text, end, "look", refusal, stage)?;
    write!(text, " question=0")
}

/// The answer to a look: what the question is about.
pub fn look(
    text: &mut String,
    end: &str,
    stage: u8,
    question: u8,
    shown: Shown<'_>,
) -> Result<(), AllocError> {
    head(text, end, "look", 0, stage)?;
    write!(text, " question={question} gauge=")?;
    octets(text, shown.client_random)?;
    write!(text, " office=")?;
    octets(text, shown.server_random)?;
    let suite = shown.suite;
    write!(text, " suite={suite:04x} parts=")?;
    let count = shown.parts.len();
    if count == 0 {
        return write!(text, "-");
    }
    for i in 0..count {
        if i > 0 {
            write!(text, ",")?;
        }
        if let Some(part) = shown.parts.get(i) {
            let offset = part.offset;
            write!(text, "{offset}:")?;
            octets(text, part.octets)?;
        }
    }
    Ok(())
}
