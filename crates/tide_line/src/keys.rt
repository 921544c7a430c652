//! The keys of a line: master secret, key material with its parts, check values.
use crate::input::Input;
use crate::show;
use anyhow::anyhow;
use key_schedule::{cbc_keys, gcm_keys, key_material, master_secret, verify_data};
use octets::Role;
use sm3::Sm3;

/// What the later steps need.
#[derive(Drop)]
pub struct Keys {
    pub cbc_material: [u8; 96],
    pub gcm_material: [u8; 40],
}

fn show_cbc(rt: &HostRuntime, material: &[u8]) -> anyhow::Result<()> {
    let Some(keys) = cbc_keys(material) else {
        return Err(anyhow!("the material for CBC has a wrong length"));
    };
    show::octets(rt, "    client MAC key", keys.client_mac_key)?;
    show::octets(rt, "    server MAC key", keys.server_mac_key)?;
    show::octets(rt, "    client key", keys.client_key)?;
    show::octets(rt, "    server key", keys.server_key)?;
    Ok(())
}

fn show_gcm(rt: &HostRuntime, material: &[u8]) -> anyhow::Result<()> {
    let Some(keys) = gcm_keys(material) else {
        return Err(anyhow!("the material for GCM has a wrong length"));
    };
    show::octets(rt, "    client key", keys.client_key)?;
    show::octets(rt, "    server key", keys.server_key)?;
    show::octets(rt, "    client IV", keys.client_iv)?;
    show::octets(rt, "    server IV", keys.server_iv)?;
    Ok(())
}

fn show_check_values(rt: &HostRuntime, input: &Input, master: &[u8; 48]) -> anyhow::Result<()> {
    let mut transcript = Sm3::new();
    for message in &input.messages {
        transcript.update(message.as_slice());
    }
    let digest = transcript.digest();
    let count = input.messages.len();
    println!(rt; "  messages so far: {count}")?;
    show::octets(rt, "their SM3 digest", &digest)?;
    show::octets(
        rt,
        "the client's check value",
        &verify_data(master, Role::Client, &digest),
    )?;
    show::octets(
        rt,
        "the server's check value",
        &verify_data(master, Role::Server, &digest),
    )?;
    Ok(())
}

/// Derives the keys, and prints each step.
pub fn derive(rt: &HostRuntime, input: &Input) -> anyhow::Result<Keys> {
    show::title(rt, "Keys")?;
    show::octets(rt, "premaster secret", &input.premaster)?;
    show::octets(rt, "client random", &input.client_random)?;
    show::octets(rt, "server random", &input.server_random)?;
    let mut master = [0u8; 48];
    master_secret(
        &input.premaster,
        &input.client_random,
        &input.server_random,
        &mut master,
    );
    show::octets(rt, "master secret, 48 octets", &master)?;
    let mut cbc_material = [0u8; 96];
    key_material(
        &master,
        &input.client_random,
        &input.server_random,
        &mut cbc_material,
    );
    show::octets(
        rt,
        "key material for e013 and e019, 96 octets",
        &cbc_material,
    )?;
    show_cbc(rt, &cbc_material)?;
    let mut gcm_material = [0u8; 40];
    key_material(
        &master,
        &input.client_random,
        &input.server_random,
        &mut gcm_material,
    );
    show::octets(
        rt,
        "key material for e053 and e059, 40 octets",
        &gcm_material,
    )?;
    show_gcm(rt, &gcm_material)?;
    show_check_values(rt, input, &master)?;
    Ok(Keys {
        cbc_material,
        gcm_material,
    })
}
