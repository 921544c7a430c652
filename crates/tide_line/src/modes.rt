//! One reading through both modes of SM4, there and back.
use crate::input::Input;
use crate::keys::Keys;
use crate::show;
use anyhow::anyhow;
use gcm::Gcm;
use key_schedule::{cbc_keys, gcm_keys};
use octets::lay;
use sm4::Sm4;

/// Octets as a key of 16, or none if there are not 16.
fn sixteen(part: &[u8]) -> anyhow::Result<[u8; 16]> {
    let mut all = [0u8; 16];
    if part.len() != all.len() {
        return Err(anyhow!("a part of 16 octets was expected"));
    }
    all.copy_from_slice(part);
    Ok(all)
}

fn show_cbc(rt: &HostRuntime, input: &Input, keys: &Keys) -> anyhow::Result<()> {
    let Some(parts) = cbc_keys(&keys.cbc_material) else {
        return Err(anyhow!("the material for CBC has a wrong length"));
    };
    let cipher = Sm4::new(&sixteen(parts.client_key)?);
    let mut text = [0u8; 32];
    lay(&mut text, 0, &input.reading);
    if !cbc::encrypt(&cipher, &input.fresh, &mut text) {
        return Err(anyhow!("the reading is not made of whole blocks"));
    }
    show::octets(rt, "in CBC mode under the client's key", &text)?;
    if !cbc::decrypt(&cipher, &input.fresh, &mut text) {
        return Err(anyhow!("the ciphertext is not made of whole blocks"));
    }
    show::octets(rt, "decrypted", &text)?;
    Ok(())
}

fn show_gcm(rt: &HostRuntime, input: &Input, keys: &Keys) -> anyhow::Result<()> {
    let Some(parts) = gcm_keys(&keys.gcm_material) else {
        return Err(anyhow!("the material for GCM has a wrong length"));
    };
    let cipher = Gcm::new(&sixteen(parts.client_key)?);
    let mut nonce = [0u8; 12];
    lay(&mut nonce, 0, parts.client_iv);
    let mut text = [0u8; 32];
    lay(&mut text, 0, &input.reading);
    let tag = cipher.encrypt(&nonce, b"tide", &mut text);
    show::octets(rt, "in GCM mode under the client's key", &text)?;
    show::octets(rt, "tag", &tag)?;
    let right = cipher.decrypt(&nonce, b"tide", &mut text, &tag);
    println!(rt; "  the tag is right: {right}")?;
    show::octets(rt, "decrypted", &text)?;
    Ok(())
}

/// Encrypts the reading in each mode and decrypts it again.
pub fn show_modes(rt: &HostRuntime, input: &Input, keys: &Keys) -> anyhow::Result<()> {
    show::title(rt, "SM4")?;
    show::octets(rt, "the reading", &input.reading)?;
    show_cbc(rt, input, keys)?;
    show_gcm(rt, input, keys)
}
