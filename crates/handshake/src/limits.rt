/// The octets of a message before its body: the type and the length.
pub const HEADER_LENGTH: usize = 4;

/// The longest body that an end takes.
pub const MESSAGE_LIMIT: usize = 4092;

/// The longest body that a length of three octets can tell.
pub const BODY_LIMIT: usize = 16_777_215;

/// The protocol version, first in each hello.
pub const VERSION: [u8; 2] = [1, 1];

/// The octets of a version.
pub const VERSION_LENGTH: usize = 2;

/// The octets of a hello's random.
pub const RANDOM_LENGTH: usize = 32;

/// The octets of the longest session id.
pub const SESSION_LIMIT: usize = 32;

/// Compression 00: none.
pub const NULL_COMPRESSION: u8 = 0;

/// The octets of a Finished: the verify data.
pub const VERIFY_DATA_LENGTH: usize = 12;
