ghost use Rattle.std.specs.Prelude.{◌≡◌};
ghost use Rattle.std.specs.Option.{option_map};
ghost use Rattle.key_schedule.specs.Parts.{cbc, cbc_mac_key, cbc_key};
ghost use Rattle.key_schedule.specs.View.{cbc_seen};

use octets::Role;

/// The octets of material of a CBC suite.
const CBC_MATERIAL: usize = 96;

/// The keys of a CBC suite, as parts of its material.
#[derive(Clone, Copy)]
pub struct CbcKeys<'a> {
    pub client_mac_key: &'a [u8],
    pub server_mac_key: &'a [u8],
    pub client_key: &'a [u8],
    pub server_key: &'a [u8],
}

/// Cuts the 96 octets of material of a CBC suite; another length is none.
pub fn cbc_keys(material: &[u8]) -> Option<CbcKeys<'_>>
    ensures { option_map cbc_seen result ≡ cbc material.now }
{
    if material.len() != CBC_MATERIAL {
        return None;
    }
    Some(CbcKeys {
        client_mac_key: &material[0..32],
        server_mac_key: &material[32..64],
        client_key: &material[64..80],
        server_key: &material[80..96],
    })
}

impl<'a> CbcKeys<'a> {
    /// The MAC key that `writer` writes with.
    pub fn mac_key(&self, writer: Role) -> &'a [u8]
        ensures { result.now ≡ cbc_mac_key writer (cbc_seen self.now) }
    {
        match writer {
            Role::Client => self.client_mac_key,
            Role::Server => self.server_mac_key,
        }
    }

    /// The key that `writer` writes with.
    pub fn key(&self, writer: Role) -> &'a [u8]
        ensures { result.now ≡ cbc_key writer (cbc_seen self.now) }
    {
        match writer {
            Role::Client => self.client_key,
            Role::Server => self.server_key,
        }
    }
}
