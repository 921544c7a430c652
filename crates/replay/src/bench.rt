//! The bench: two ends, and what each has written and the other has not yet consumed.
use crate::end::End;
use crate::fault::ReplayFault;
use crate::show;
use crate::show::Places;
use replay_script::{
    CallRoom, EndName, ProtectionKind, Received, ScriptCall, ScriptLine, StepCall,
};
use std::alloc::{AllocError, Global};

/// What the output and the opening place hold before each call.
const FILL: u8 = 0xee;

/// One side of the bench.
#[derive(Drop)]
struct Side {
    name: EndName,
    end: Option<End>,
    /// What the end has written and the other has not yet consumed.
    waiting: Vec<u8>,
}

impl Side {
    fn new(heap: Global, name: EndName) -> Side {
        Side {
            name,
            end: None,
            waiting: Vec::new(heap),
        }
    }

    /// Sets the end up anew; where that is refused, an earlier end stays as it is.
    fn set_up(
        &mut self,
        heap: Global,
        kind: ProtectionKind,
        suites: &[u16],
        text: &mut String,
    ) -> Result<(), ReplayFault> {
        let word = self.name.word();
        match End::set_up(self.name.role(), kind, suites) {
            Ok(end) => {
                show::set_up(text, word, 0, end.stage())?;
                self.end = Some(end);
                self.waiting = Vec::new(heap);
            }
            Err(refusal) => show::set_up(text, word, refusal.number(), 0)?,
        }
        Ok(())
    }

    /// Lets go of what the other end has consumed.
    fn forget(&mut self, count: usize) -> Result<(), AllocError> {
        if count <= self.waiting.len() {
            let rest = self.waiting.split_off(count)?;
            self.waiting = rest;
        }
        Ok(())
    }
}

/// The octets that a call hands in.
fn received<'a>(step: &'a StepCall, waiting: &'a [u8]) -> &'a [u8] {
    match step {
        StepCall::HandIn(Received::Octets(octets)) => octets.as_slice(),
        StepCall::HandIn(Received::Waiting) => waiting,
        StepCall::HandIn(Received::WaitingFirst(limit)) => {
            let n = (*limit).min(waiting.len());
            &waiting[..n]
        }
        _ => &[],
    }
}

/// Whether a call hands in what waits.
fn takes_waiting(step: &StepCall) -> bool {
    match step {
        StepCall::HandIn(Received::Waiting) | StepCall::HandIn(Received::WaitingFirst(_)) => true,
        _ => false,
    }
}

/// Runs one call on the end of a side, and moves what crosses to the other.
fn run_step(
    heap: Global,
    side: &mut Side,
    other: &mut Side,
    step: &StepCall,
    room: &CallRoom,
    text: &mut String,
) -> Result<(), ReplayFault> {
    let name = side.name;
    let Some(end) = side.end.as_mut() else {
        return Err(ReplayFault::NotSetUp(name));
    };
    let mut out = vec![in heap; FILL; room.out]?;
    let mut place = vec![in heap; FILL; room.place.unwrap_or(0)]?;
    let done = end.run_step(
        heap,
        step,
        received(step, other.waiting.as_slice()),
        room.fresh.as_slice(),
        out.as_mut_slice(),
        place.as_mut_slice(),
    )?;
    let places = Places {
        out: out.as_slice(),
        place: place.as_slice(),
        fill: FILL,
    };
    show::answer(text, name.word(), step.word(), done, places)?;
    let written = done.written.min(out.len());
    side.waiting.extend_from_slice(&out.as_slice()[..written])?;
    if let Some(handed) = done.handed {
        if takes_waiting(step) {
            other.forget(handed.consumed)?;
        }
    }
    Ok(())
}

fn look(
    side: &Side,
    question: Option<model::Question>,
    text: &mut String,
) -> Result<(), ReplayFault> {
    let Some(end) = &side.end else {
        return Err(ReplayFault::NotSetUp(side.name));
    };
    end.look(side.name.word(), question, text)?;
    Ok(())
}

/// The two ends of a line.
#[derive(Drop)]
pub struct Bench {
    gauge: Side,
    office: Side,
}

impl Bench {
    /// A bench with neither end set up.
    pub fn new(heap: Global) -> Bench {
        Bench {
            gauge: Side::new(heap, EndName::Gauge),
            office: Side::new(heap, EndName::Office),
        }
    }

    /// Runs one line of a script, and writes its answer.
    pub fn run_line(
        &mut self,
        heap: Global,
        line: &ScriptLine,
        text: &mut String,
    ) -> Result<(), ReplayFault> {
        match line.end {
            EndName::Gauge => run_call(heap, &mut self.gauge, &mut self.office, &line.call, text),
            EndName::Office => run_call(heap, &mut self.office, &mut self.gauge, &line.call, text),
        }
    }
}

fn run_call(
    heap: Global,
    side: &mut Side,
    other: &mut Side,
    call: &ScriptCall,
    text: &mut String,
) -> Result<(), ReplayFault> {
    match call {
        ScriptCall::SetUp(kind, suites) => side.set_up(heap, *kind, suites.as_slice(), text),
        ScriptCall::Look(question) => look(side, *question, text),
        ScriptCall::Step(step, room) => run_step(heap, side, other, step, room, text),
    }
}
