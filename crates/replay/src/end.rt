//! One end, with any of the kinds of record protection.
use crate::calls::{CallResult, run_step};
use crate::fault::ReplayFault;
use crate::show;
use cbc_protection::CbcProtection;
use endpoint::Endpoint;
use gcm_protection::GcmProtection;
use model::{Question, Refusal};
use octets::Role;
use protection::{PairedProtection, RecordProtection};
use replay_script::{ProtectionKind, StepCall};
use std::alloc::{AllocError, Global};

/// An end that was set up, by its kind of record protection.
#[derive(Drop)]
pub enum End {
    Cbc(Endpoint<CbcProtection>),
    Gcm(Endpoint<GcmProtection>),
    Pair(Endpoint<PairedProtection<CbcProtection, GcmProtection>>),
}

impl End {
    /// A new end.
    pub fn set_up(role: Role, kind: ProtectionKind, suites: &[u16]) -> Result<End, Refusal> {
        match kind {
            ProtectionKind::Cbc => match Endpoint::set_up(role, CbcProtection::new(), suites) {
                Ok(end) => Ok(End::Cbc(end)),
                Err(no) => Err(no.refusal),
            },
            ProtectionKind::Gcm => match Endpoint::set_up(role, GcmProtection::new(), suites) {
                Ok(end) => Ok(End::Gcm(end)),
                Err(no) => Err(no.refusal),
            },
            ProtectionKind::Pair => {
                let pair = PairedProtection::new(CbcProtection::new(), GcmProtection::new());
                match Endpoint::set_up(role, pair, suites) {
                    Ok(end) => Ok(End::Pair(end)),
                    Err(no) => Err(no.refusal),
                }
            }
        }
    }

    /// The number of the end's stage.
    pub fn stage(&self) -> u8 {
        match self {
            End::Cbc(end) => end.stage().number(),
            End::Gcm(end) => end.stage().number(),
            End::Pair(end) => end.stage().number(),
        }
    }

    /// Runs one call.
    pub fn run_step(
        &mut self,
        heap: Global,
        step: &StepCall,
        received: &[u8],
        fresh: &[u8],
        out: &mut [u8],
        place: &mut [u8],
    ) -> Result<CallResult, ReplayFault> {
        match self {
            End::Cbc(end) => run_step(end, heap, step, received, fresh, out, place),
            End::Gcm(end) => run_step(end, heap, step, received, fresh, out, place),
            End::Pair(end) => run_step(end, heap, step, received, fresh, out, place),
        }
    }

    /// Looks at a question, or at the one that is open.
    pub fn look(
        &self,
        name: &str,
        question: Option<Question>,
        text: &mut String,
    ) -> Result<(), AllocError> {
        match self {
            End::Cbc(end) => look_at(end, name, question, text),
            End::Gcm(end) => look_at(end, name, question, text),
            End::Pair(end) => look_at(end, name, question, text),
        }
    }
}

/// Any question serves where none is open: the look is refused.
fn look_at<P: RecordProtection>(
    end: &Endpoint<P>,
    name: &str,
    question: Option<Question>,
    text: &mut String,
) -> Result<(), AllocError> {
    let stage = end.stage();
    let asked = match question {
        Some(asked) => asked,
        None => stage.question().unwrap_or(Question::ClientRandom),
    };
    match end.look(asked) {
        Ok(shown) => show::look(text, name, stage.number(), asked.number(), shown),
        Err(refusal) => show::no_look(text, name, refusal.number(), stage.number()),
    }
}
