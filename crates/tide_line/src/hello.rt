//! A ClientHello written, put into a record and read back; and a malformed one refused.
use crate::input::Input;
use crate::show;
use anyhow::anyhow;
use handshake_reader::{ClientHello, read_message};
use handshake_writer::{ClientOffer, write_message};
use records::{ContentKind, Fault, Layer, write_record};

/// The suites that the gauge offers.
const OFFERED: [u16; 2] = [0xe053, 0xe013];

fn layer_name(layer: Layer) -> &'static str {
    match layer {
        Layer::Record => "record",
        Layer::Content => "content",
        Layer::Message => "message",
        Layer::Stage => "stage",
        Layer::Card => "card",
    }
}

fn show_fault(rt: &HostRuntime, fault: Fault) -> anyhow::Result<()> {
    let alert = fault.alert.number();
    let layer = layer_name(fault.layer);
    println!(rt; "  refused: alert {alert}, found in layer {layer}")?;
    Ok(())
}

fn show_read(rt: &HostRuntime, octets: &[u8]) -> anyhow::Result<()> {
    let read: Result<ClientHello<'_>, Fault> = read_message(octets);
    match read {
        Ok(hello) => {
            show::octets(rt, "read back, random", hello.random)?;
            let count = hello.suites.len();
            println!(rt; "  read back, suites: {count}")?;
            for i in 0..count {
                if let Some(suite) = hello.suites.get(i) {
                    println!(rt; "    {suite:04x}")?;
                }
            }
            let null = hello.offers_null_compression();
            println!(rt; "  read back, compression 00 offered: {null}")?;
        }
        Err(fault) => show_fault(rt, fault)?,
    }
    Ok(())
}

/// Writes a hello, reads it back, and reads one with an octet too many.
pub fn show_messages(rt: &HostRuntime, input: &Input) -> anyhow::Result<()> {
    show::title(rt, "Messages")?;
    let offer = ClientOffer {
        random: &input.client_random,
        suites: &OFFERED,
    };
    let mut message = [0u8; 256];
    let Some(end) = write_message(&offer, &mut message, 0) else {
        return Err(anyhow!("the hello could not be written"));
    };
    let Some(hello) = message.get(0..end) else {
        return Err(anyhow!("the hello is longer than its place"));
    };
    show::octets(rt, "ClientHello", hello)?;
    let mut record = [0u8; 512];
    let Some(size) = write_record(ContentKind::Handshake.octet(), hello, &mut record, 0) else {
        return Err(anyhow!("the record could not be written"));
    };
    if let Some(whole) = record.get(0..size) {
        show::octets(rt, "in a record of its own", whole)?;
    }
    show_read(rt, hello)?;
    let mut longer = [0u8; 256];
    let at = octets::lay(&mut longer, 0, hello);
    let stop = octets::lay(&mut longer, at, &[0]);
    if longer.len() > 3 {
        longer[3] = longer[3].wrapping_add(1);
    }
    if let Some(malformed) = longer.get(0..stop) {
        show::words(rt, "the same with an octet behind its compressions")?;
        show_read(rt, malformed)?;
    }
    Ok(())
}
