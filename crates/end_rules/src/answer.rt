ghost use Rattle.std.specs.Prelude.{◌≡◌, map, length};
ghost use Rattle.handshake.specs.Parts.{versioned};
ghost use Rattle.model.specs.Refusals.{within, certificates_fit, parts_fit, takes_no, lengths_fit, takes_answer};
ghost use Rattle.end_rules.specs.Views.{seen_parts, no_parts, seen_answer};

use model::Question;

/// The octets of a random.
const RANDOM_SIZE: usize = 32;

/// The octets of a session id.
const SESSION_SIZE: usize = 32;

/// The octets of a premaster.
const PREMASTER_SIZE: usize = 48;

/// The certificates: one for signing, one for encryption.
const CERTIFICATE_COUNT: usize = 2;

/// The most octets of a certificate.
const CERTIFICATE_LIMIT: usize = 1_500;

/// The most octets of a signature.
const SIGNATURE_LIMIT: usize = 512;

/// The most octets of a wrapped premaster.
const WRAPPING_LIMIT: usize = 512;

/// What a yes may bring; a question takes some of it.
#[derive(Clone, Copy)]
pub struct AnswerParts<'a> {
    pub random: &'a [u8],
    pub session: &'a [u8],
    pub certificates: &'a [&'a [u8]],
    pub signature: &'a [u8],
    pub premaster: &'a [u8],
    pub wrapped: &'a [u8],
}

impl<'a> AnswerParts<'a> {
    /// No parts, for a question that takes none.
    pub fn none() -> AnswerParts<'a>
        ensures { seen_parts result ≡ no_parts }
    {
        AnswerParts {
            random: &[],
            session: &[],
            certificates: &[],
            signature: &[],
            premaster: &[],
            wrapped: &[],
        }
    }
}

/// What the key card says to a question: yes with its parts, or no with a number.
#[derive(Clone, Copy)]
pub enum Answer<'a> {
    Yes(AnswerParts<'a>),
    No(u8),
}

/// Whether the parts of an answer have the lengths that a question asks for, and a premaster to be wrapped begins 01 01.
pub fn lengths_fit(question: Question, answer: Answer<'_>) -> bool
    ensures { result ≡ lengths_fit question (seen_answer answer.entry) }
{
    match answer {
        Answer::Yes(parts) => parts_fit(question, parts),
        Answer::No(_) => true,
    }
}

/// Whether a question takes an answer: a yes always, a no of some numbers.
pub fn takes_answer(question: Question, answer: Answer<'_>) -> bool
    ensures { result ≡ takes_answer question (seen_answer answer.entry) }
{
    match answer {
        Answer::Yes(_) => true,
        Answer::No(number) => takes_no(question, number),
    }
}

/// Whether a question takes a no with a number.
fn takes_no(question: Question, number: u8) -> bool
    ensures { result ≡ takes_no question number }
{
    match question {
        Question::ClientRandom => false,
        Question::CheckCertificates => 42 <= number && number <= 46 || number == 48,
        Question::CheckSignature => number == 51,
        Question::ServerFlight | Question::WrapPremaster | Question::UnwrapPremaster => true,
    }
}

/// Whether the parts of a yes have the lengths that a question asks for.
fn parts_fit(question: Question, parts: AnswerParts<'_>) -> bool
    ensures { result ≡ parts_fit question (seen_parts parts.entry) }
{
    match question {
        Question::ClientRandom => parts.random.len() == RANDOM_SIZE,
        Question::ServerFlight => {
            parts.random.len() == RANDOM_SIZE
                && parts.session.len() == SESSION_SIZE
                && certificates_fit(parts.certificates)
                && is_within(parts.signature, SIGNATURE_LIMIT)
        }
        Question::CheckCertificates | Question::CheckSignature => true,
        Question::WrapPremaster => {
            parts.premaster.len() == PREMASTER_SIZE
                && is_versioned(parts.premaster)
                && is_within(parts.wrapped, WRAPPING_LIMIT)
        }
        Question::UnwrapPremaster => parts.premaster.len() == PREMASTER_SIZE,
    }
}

/// Whether there are two certificates, each of 1 to 1,500 octets.
fn certificates_fit(certificates: &[&[u8]]) -> bool
    ensures { result ≡ certificates_fit (map (λ x. x.now) certificates.now) }
{
    if certificates.len() != CERTIFICATE_COUNT {
        return false;
    }
    is_within(certificates[0], CERTIFICATE_LIMIT) && is_within(certificates[1], CERTIFICATE_LIMIT)
}

/// Whether a part has 1 octet or more, up to a limit.
fn is_within(part: &[u8], limit: usize) -> bool
    ensures { result ≡ within 1 limit (length part.now) }
{
    1 <= part.len() && part.len() <= limit
}

/// Whether a premaster begins with the version, 01 01.
pub fn is_versioned(premaster: &[u8]) -> bool
    ensures { result ≡ versioned premaster.now }
{
    match premaster {
        [1, 1, ..] => true,
        _ => false,
    }
}
