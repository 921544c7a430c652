//! A line between a tide gauge and a tariff office, layer by layer, on data from standard input.
#![tactic(auto)]

mod hello;
mod input;
mod keys;
mod modes;
mod protect;
mod show;

use anyhow::anyhow;
use input::Input;

/// Reads the input, and says which line is at fault if one is.
fn read_input(rt: &HostRuntime) -> anyhow::Result<Input> {
    let heap = rt.alloc();
    let mut input = Input::new(heap);
    let mut number = 0u64;
    for line in rt.lines(heap) {
        let text = line?;
        number = number.saturating_add(1);
        match input.take_line(heap, text.as_str()) {
            Ok(()) => {}
            Err(fault) => {
                eprintln!(rt; "line {number} of the input: {fault}")?;
                return Err(anyhow!("the input was not taken; nothing was computed"));
            }
        }
    }
    Ok(input)
}

fn run(rt: &HostRuntime) -> anyhow::Result<()> {
    let input = read_input(rt)?;
    let keys = keys::derive(rt, &input)?;
    modes::show_modes(rt, &input, &keys)?;
    protect::show_protections(rt, &input, &keys)?;
    hello::show_messages(rt, &input)
}

fn main(rt: HostRuntime) -> anyhow::Result<()> {
    run(&rt)
}
