//! The calls of an end, with what a script brings to them.
use crate::fault::ReplayFault;
use end_rules::{Answer, AnswerParts};
use endpoint::{Endpoint, HandInReport, Report};
use model::{Question, Refusal, Stage};
use protection::RecordProtection;
use records::Fault;
use replay_script::{ScriptAnswer, StepCall};
use std::alloc::Global;

/// What a hand-in says beyond the other calls.
#[derive(Clone, Copy)]
pub struct HandedIn {
    pub consumed: usize,
    pub released: usize,
    pub more: bool,
}

/// What a call yielded; the refusal is 0 where it was accepted.
#[derive(Clone, Copy)]
pub struct CallResult {
    pub refusal: u8,
    pub stage: u8,
    pub written: usize,
    pub fault: Option<Fault>,
    pub handed: Option<HandedIn>,
}

impl CallResult {
    /// A refused call on an end of this stage.
    fn refused(stage: Stage, refusal: Refusal, handed: Option<HandedIn>) -> CallResult {
        CallResult {
            refusal: refusal.number(),
            stage: stage.number(),
            written: 0,
            fault: None,
            handed,
        }
    }

    fn of_report(stage: Stage, res: Result<Report, Refusal>) -> CallResult {
        match res {
            Ok(report) => CallResult {
                refusal: 0,
                stage: report.stage.number(),
                written: report.written,
                fault: report.fault,
                handed: None,
            },
            Err(refusal) => CallResult::refused(stage, refusal, None),
        }
    }

    fn of_hand_in(stage: Stage, res: Result<HandInReport, Refusal>) -> CallResult {
        match res {
            Ok(report) => CallResult {
                refusal: 0,
                stage: report.stage.number(),
                written: report.written,
                fault: report.fault,
                handed: Some(HandedIn {
                    consumed: report.consumed,
                    released: report.released,
                    more: report.more,
                }),
            },
            Err(refusal) => {
                let nothing = HandedIn {
                    consumed: 0,
                    released: 0,
                    more: false,
                };
                CallResult::refused(stage, refusal, Some(nothing))
            }
        }
    }
}

/// Runs one call of a script on an end; the octets received are those of a hand-in.
pub fn run_step<P: RecordProtection>(
    end: &mut Endpoint<P>,
    heap: Global,
    step: &StepCall,
    received: &[u8],
    fresh: &[u8],
    out: &mut [u8],
    place: &mut [u8],
) -> Result<CallResult, ReplayFault> {
    let result = match step {
        StepCall::HandIn(_) => {
            let result = end.hand_in(received, fresh, out, place);
            return Ok(CallResult::of_hand_in(end.stage(), result));
        }
        StepCall::Turn => end.turn(fresh, out),
        StepCall::Answer(question, answer) => {
            answer_question(end, heap, *question, answer, fresh, out)?
        }
        StepCall::Send(reading) => end.send(reading.as_slice(), fresh, out),
        StepCall::Close => end.close(fresh, out),
    };
    Ok(CallResult::of_report(end.stage(), result))
}

/// The certificates of a yes.
fn certificates_of(heap: Global, answer: &ScriptAnswer) -> Result<Vec<&[u8]>, ReplayFault> {
    let mut certificates = Vec::new(heap);
    if let ScriptAnswer::Yes(parts) = answer {
        for certificate in parts.certificates.iter() {
            certificates.push(certificate.as_slice())?;
        }
    }
    Ok(certificates)
}

/// An answer as the end takes it.
fn answer_of<'a>(answer: &'a ScriptAnswer, certificates: &'a [&'a [u8]]) -> Answer<'a> {
    match answer {
        ScriptAnswer::Yes(parts) => Answer::Yes(AnswerParts {
            random: parts.random.as_slice(),
            session: parts.session.as_slice(),
            certificates,
            signature: parts.signature.as_slice(),
            premaster: parts.premaster.as_slice(),
            wrapped: parts.wrapped.as_slice(),
        }),
        ScriptAnswer::No(number) => Answer::No(*number),
    }
}

fn answer_question<P: RecordProtection>(
    end: &mut Endpoint<P>,
    heap: Global,
    question: Question,
    answer: &ScriptAnswer,
    fresh: &[u8],
    out: &mut [u8],
) -> Result<Result<Report, Refusal>, ReplayFault> {
    let certificates = certificates_of(heap, answer)?;
    let given = answer_of(answer, certificates.as_slice());
    Ok(end.answer(question, given, fresh, out))
}
