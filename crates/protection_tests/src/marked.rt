ghost use Rattle.std.specs.Prelude.{◌≡◌, ℕ, length};

use octets::Role;

/// What a kind of marking protection puts first, and the number of its own suite.
pub trait Mark {
    ghost number: { ℕ };

    fn number() -> u8
        ensures { result ≡ number };
}

/// What a marking protection is keyed with.
#[derive(Drop)]
pub struct Keys {
    /// Whether the suite is the one that all marks serve.
    pub shared: bool,
    pub role: Role,
    pub material: [u8; 2],
    ghost whole: { length material ≡ 2 },
}

/// A protection that marks records and hides nothing.
#[derive(Drop)]
pub struct Marked<M: Mark> {
    pub mark: M,
    pub keys: Option<Keys>,
}
