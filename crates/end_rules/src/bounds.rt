ghost use Rattle.std.specs.Prelude.{◌≡◌, [], ◌∷◌};
ghost use Rattle.model.specs.Limits.{reply_space, send_space, place_space, suite_limit, send_limit, read_limit};

use protection::SEALED_LIMIT;

/// The output that every call wants which may write, but a send.
pub const REPLY_SPACE: usize = 4_096;

/// The output that a send wants beyond its content.
pub const SEND_SPACE: usize = 2_053;

/// The opening place that a hand in wants.
pub const PLACE_SPACE: usize = SEALED_LIMIT;

/// The most suites that an end takes.
pub const SUITE_LIMIT: usize = 8;

/// The write number at which no reading is sent.
pub const SEND_LIMIT: u64 = 16_777_215;

/// The read number at which no record is opened.
pub const READ_LIMIT: u64 = 16_777_216;

/// The spaces and the count of suites, in the order above; that of a send is for no content.
pub fn spaces() -> [usize; 4]
    ensures { result ≡ reply_space ∷ send_space 0 ∷ place_space ∷ suite_limit ∷ [] }
{
    [REPLY_SPACE, SEND_SPACE, PLACE_SPACE, SUITE_LIMIT]
}

/// The last numbers of records: of a send, and of an opening.
pub fn number_limits() -> [u64; 2]
    ensures { result ≡ send_limit ∷ read_limit ∷ [] }
{
    [SEND_LIMIT, READ_LIMIT]
}
