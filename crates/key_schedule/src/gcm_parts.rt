ghost use Rattle.std.specs.Prelude.{◌≡◌};
ghost use Rattle.std.specs.Option.{option_map};
ghost use Rattle.key_schedule.specs.Parts.{gcm, gcm_key, gcm_iv};
ghost use Rattle.key_schedule.specs.View.{gcm_seen};

use octets::Role;

/// The octets of material of a GCM suite.
const GCM_MATERIAL: usize = 40;

/// The keys of a GCM suite, as parts of its material.
#[derive(Clone, Copy)]
pub struct GcmKeys<'a> {
    pub client_key: &'a [u8],
    pub server_key: &'a [u8],
    pub client_iv: &'a [u8],
    pub server_iv: &'a [u8],
}

/// Cuts the 40 octets of material of a GCM suite; another length is none.
pub fn gcm_keys(material: &[u8]) -> Option<GcmKeys<'_>>
    ensures { option_map gcm_seen result ≡ gcm material.now }
{
    if material.len() != GCM_MATERIAL {
        return None;
    }
    Some(GcmKeys {
        client_key: &material[0..16],
        server_key: &material[16..32],
        client_iv: &material[32..36],
        server_iv: &material[36..40],
    })
}

impl<'a> GcmKeys<'a> {
    /// The key that `writer` writes with.
    pub fn key(&self, writer: Role) -> &'a [u8]
        ensures { result.now ≡ gcm_key writer (gcm_seen self.now) }
    {
        match writer {
            Role::Client => self.client_key,
            Role::Server => self.server_key,
        }
    }

    /// The IV that `writer` writes with.
    pub fn iv(&self, writer: Role) -> &'a [u8]
        ensures { result.now ≡ gcm_iv writer (gcm_seen self.now) }
    {
        match writer {
            Role::Client => self.client_iv,
            Role::Server => self.server_iv,
        }
    }
}
