//! Replays a script of calls to the two ends of a line, and prints one line for each answer.
#![tactic(auto)]

mod bench;
mod calls;
mod end;
mod fault;
mod show;

use anyhow::anyhow;
use bench::Bench;
use fault::ReplayFault;
use replay_script::read_line;
use std::alloc::Global;
use std::io::{BufRead, BufReader};

/// The answer to one line of the script; empty for a line with no call.
fn answer_line(heap: Global, bench: &mut Bench, text: &str) -> Result<String, ReplayFault> {
    let mut answer = String::new(heap);
    if let Some(line) = read_line(heap, text)? {
        bench.run_line(heap, &line, &mut answer)?;
    }
    Ok(answer)
}

/// Replays the script to its end or to the first line that is at fault.
fn run(rt: &HostRuntime) -> anyhow::Result<()> {
    let heap = rt.alloc();
    let mut bench = Bench::new(heap);
    let mut number = 0u64;
    for line in BufReader::new(heap, rt.stdin())?.lines(heap) {
        number = number.saturating_add(1);
        let text = match line {
            Ok(text) => text,
            Err(error) => {
                eprintln!(rt; "line {number} of the script cannot be read: {error}")?;
                return Err(anyhow!("the script was replayed up to this line"));
            }
        };
        match answer_line(heap, &mut bench, text.as_str()) {
            Ok(answer) => {
                if !answer.is_empty() {
                    rt.println(answer.as_str())?;
                }
            }
            Err(fault) => {
                eprintln!(rt; "line {number} of the script: {fault}")?;
                return Err(anyhow!("the script was replayed up to this line"));
            }
        }
    }
    Ok(())
}

fn main(rt: HostRuntime) -> anyhow::Result<()> {
    run(&rt)
}
