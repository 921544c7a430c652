//! What a look shows.
ghost use Rattle.std.specs.Prelude.{◌≡◌, length};
ghost use Rattle.std.specs.List.{slice_get};
ghost use Rattle.std.specs.Option.{option_map};
ghost use Rattle.handshake_reader.specs.Views.{seen_certificates};
ghost use Rattle.model.specs.Results.{parts_from};
ghost use Rattle.endpoint.specs.Shown.{part_seen, parts_seen};

use handshake_reader::Certificate;

/// Where the part of a message that carries one stands: behind the header and a length of two octets.
const CARRIED_OFFSET: usize = 6;

/// What a look shows: the randoms and the suite so far, and the parts of the message in question.
#[derive(Clone, Copy)]
pub struct Shown<'a> {
    pub client_random: &'a [u8],
    pub server_random: &'a [u8],
    /// The suite chosen, 0 before.
    pub suite: u16,
    pub parts: ShownParts<'a>,
}

/// A part of a message, and its offset from the message's first octet, the header included.
#[derive(Clone, Copy)]
pub struct Part<'a> {
    pub offset: usize,
    pub octets: &'a [u8],
}

/// The parts of the message in question.
#[derive(Clone, Copy)]
pub enum ShownParts<'a> {
    /// None: the question is about no message, or it has no parts.
    Nothing,
    /// The certificates of a Certificate.
    Certificates(Certificate<'a>),
    /// What a key exchange carries: a signature or a wrapped premaster.
    Carried(&'a [u8]),
}

impl<'a> ShownParts<'a> {
    /// How many parts there are.
    pub fn len(&self) -> usize
        ensures { result ≡ length (parts_seen self.now) }
    {
        match self {
            ShownParts::Nothing => 0,
            ShownParts::Certificates(list) => list.len(),
            ShownParts::Carried(_) => 1,
        }
    }

    /// The part at a place, counted from 0.
    pub fn get(&self, index: usize) -> Option<Part<'a>>
        ensures { option_map part_seen result ≡ slice_get (parts_seen self.now) index }
    {
        match self {
            ShownParts::Nothing => None,
            ShownParts::Certificates(list) => certificate_at(list, index),
            ShownParts::Carried(octets) => {
                if index != 0 {
                    return None;
                }
                Some(Part {
                    offset: CARRIED_OFFSET,
                    octets: *octets,
                })
            }
        }
    }
}

/// The certificate at a place of a list, and where it stands.
fn certificate_at<'a>(list: &Certificate<'a>, index: usize) -> Option<Part<'a>>
    ensures { option_map part_seen result ≡ slice_get (parts_from 7 (seen_certificates list.now)) index }
{
    let span = list.get(index)?;
    let octets = list.octets(index)?;
    Some(Part {
        offset: span.offset,
        octets,
    })
}
