//! The names of requests.

ghost use Rattle.std.specs.Prelude.{◌≡◌};

use sessions::Number;

/// What a request is known by.
#[derive(Clone, Copy, PartialEq, Eq, Hash)]
pub(super) struct Name {
    client: u8,
    number: u64,
}

impl Name {
    /// The name of this client's request of this number.
    pub(super) fn new(client: u8, number: Number) -> Name
        ensures { result ≡ record { client = client; number = number } }
    {
        Name {
            client,
            number: number.value(),
        }
    }
}
