ghost use Rattle.std.specs.Prelude.{◌≡◌};
ghost use Rattle.octets.specs.Roles.{peer};

/// Which end of the line: the client is the gauge, the server the office.
#[derive(Clone, Copy, PartialEq, Eq)]
pub enum Role {
    Client,
    Server,
}

impl Role {
    /// The other end.
    pub fn peer(self) -> Role
        ensures { result ≡ peer self }
    {
        match self {
            Role::Client => Role::Server,
            Role::Server => Role::Client,
        }
    }
}
