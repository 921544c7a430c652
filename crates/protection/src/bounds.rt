ghost use Rattle.std.specs.Prelude.{◌≡◌, [], ◌∷◌};
ghost use Rattle.protection.specs.Limits.{content_limit, growth, sealed_limit, fresh_size, material_limit};
ghost use Rattle.protection.specs.Calls.{may_seal, may_open};

/// The longest content that is sealed.
pub const CONTENT_LIMIT: usize = 16_384;

/// By how much a sealed list may be longer than its content, and the room that sealing asks for beyond the content.
pub const GROWTH: usize = 2_048;

/// The most octets that are opened, and the room that opening asks for.
pub const SEALED_LIMIT: usize = 18_432;

/// The fresh octets that sealing takes.
pub const FRESH_SIZE: usize = 16;

/// The most octets of key material that a suite takes.
pub const MATERIAL_LIMIT: usize = 96;

/// The five numbers, in the order above.
pub fn limits() -> [usize; 5]
    ensures { result ≡ content_limit ∷ growth ∷ sealed_limit ∷ fresh_size ∷ material_limit ∷ [] }
{
    [
        CONTENT_LIMIT,
        GROWTH,
        SEALED_LIMIT,
        FRESH_SIZE,
        MATERIAL_LIMIT,
    ]
}

/// Whether a content and fresh octets of these lengths are sealed, with that much room for the sealed list.
pub fn may_seal(content: usize, fresh: usize, room: usize) -> bool
    ensures { result ≡ may_seal content fresh room }
{
    1 <= content && content <= CONTENT_LIMIT && fresh == FRESH_SIZE && content + GROWTH <= room
}

/// Whether this many octets are opened, with that much room for the content.
pub fn may_open(octets: usize, room: usize) -> bool
    ensures { result ≡ may_open octets room }
{
    octets <= SEALED_LIMIT && SEALED_LIMIT <= room
}
