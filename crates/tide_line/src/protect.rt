//! One reading through every kind of record protection, sealed by the gauge and opened by the office.
use crate::input::Input;
use crate::keys::Keys;
use crate::show;
use anyhow::anyhow;
use cbc_protection::CbcProtection;
use gcm_protection::GcmProtection;
use octets::Role;
use protection::{PairedProtection, RecordProtection};

/// The kind of a record with application data.
const APPLICATION_DATA: u8 = 23;

/// Two protections of one kind, the gauge's and the office's, keyed alike.
fn show_line<P: RecordProtection>(
    rt: &HostRuntime,
    input: &Input,
    gauge: &mut P,
    office: &mut P,
    suite: u16,
    material: &[u8],
) -> anyhow::Result<()> {
    if !gauge.key(suite, Role::Client, material) || !office.key(suite, Role::Server, material) {
        return Err(anyhow!("the suite is not served, or its material has a wrong length"));
    }
    let mut out = [0u8; 4096];
    let Some(n) = gauge.seal(0, APPLICATION_DATA, &input.reading, &input.fresh, &mut out) else {
        return Err(anyhow!("the reading could not be sealed"));
    };
    let Some(sealed) = out.get(0..n) else {
        return Err(anyhow!("the sealed list is longer than its place"));
    };
    show::octets(rt, "sealed by the gauge at number 0", sealed)?;
    show_opened(rt, office, sealed)?;
    show_damaged(rt, office, sealed)
}

fn show_opened<P: RecordProtection>(
    rt: &HostRuntime,
    office: &P,
    sealed: &[u8],
) -> anyhow::Result<()> {
    let mut place = [0u8; 18432];
    match office.open(0, APPLICATION_DATA, sealed, &mut place) {
        Ok(size) => {
            let Some(content) = place.get(0..size) else {
                return Err(anyhow!("the content is longer than its place"));
            };
            show::octets(rt, "opened by the office", content)?;
        }
        Err(_) => show::words(rt, "refused by the office")?,
    }
    Ok(())
}

/// The same with one bit of its last octet turned round.
fn show_damaged<P: RecordProtection>(
    rt: &HostRuntime,
    office: &P,
    sealed: &[u8],
) -> anyhow::Result<()> {
    let mut damaged = [0u8; 4096];
    let end = octets::lay(&mut damaged, 0, sealed);
    if end > 0 {
        damaged[end - 1] ^= 1;
    }
    let mut place = [0u8; 18432];
    match office.open(0, APPLICATION_DATA, &damaged[0..end], &mut place) {
        Ok(_) => show::words(rt, "with one bit damaged: opened, which must not be")?,
        Err(no) => {
            let alert = no.alert();
            println!(rt; "  with one bit damaged: refused, alert {alert}")?;
        }
    }
    Ok(())
}

/// Both kinds, and each through a pair.
pub fn show_protections(rt: &HostRuntime, input: &Input, keys: &Keys) -> anyhow::Result<()> {
    let cbc: &[u8] = &keys.cbc_material;
    let gcm: &[u8] = &keys.gcm_material;
    show::title(rt, "Record protection")?;
    show::words(rt, "CBC, suite e013")?;
    let mut gauge = CbcProtection::new();
    let mut office = CbcProtection::new();
    show_line(rt, input, &mut gauge, &mut office, 0xe013, cbc)?;
    show::words(rt, "GCM, suite e053")?;
    let mut gauge = GcmProtection::new();
    let mut office = GcmProtection::new();
    show_line(rt, input, &mut gauge, &mut office, 0xe053, gcm)?;
    let mut gauge = PairedProtection::new(CbcProtection::new(), GcmProtection::new());
    let mut office = PairedProtection::new(CbcProtection::new(), GcmProtection::new());
    show::words(rt, "a pair of both, suite e019")?;
    show_line(rt, input, &mut gauge, &mut office, 0xe019, cbc)?;
    show::words(rt, "the same pair keyed anew, suite e059")?;
    show_line(rt, input, &mut gauge, &mut office, 0xe059, gcm)
}
