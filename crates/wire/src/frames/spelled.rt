//! The bytes of a frame.

ghost use Rattle.std.specs.Prelude.{◌≡◌, IfSome, IfOk};
ghost use Rattle.wire.specs.Framing.{bytes_in};

use std::alloc::{AllocError, Global};
use std::rc::Rc;

/// The bytes of a frame: its own, or those that it shares with the frames of the same message to other nodes.
#[derive(Drop)]
pub(super) enum Spelled {
    Alone(Vec<u8>),
    Shared(Rc<Vec<u8>>),
}

impl Spelled {
    /// These bytes, to be shared.
    pub(super) fn shared(alloc: Global, bytes: Vec<u8>) -> Result<Spelled, AllocError>
        ensures { IfOk result (λ spelled. bytes_in spelled ≡ bytes.items) }
    {
        Ok(Spelled::Shared(Rc::new(alloc, bytes)?))
    }

    /// The bytes.
    pub(super) fn bytes(&self) -> &[u8]
        ensures { result.now ≡ bytes_in self.now }
    {
        match self {
            Spelled::Alone(bytes) => bytes.as_slice(),
            Spelled::Shared(bytes) => bytes.as_slice(),
        }
    }

    /// The bytes, where they are shared.
    pub(super) fn shared_bytes(&self) -> Option<&Rc<Vec<u8>>>
        ensures { IfSome result (λ bytes. bytes.now.value.items ≡ bytes_in self.now) }
    {
        match self {
            Spelled::Alone(_) => None,
            Spelled::Shared(bytes) => Some(bytes),
        }
    }

    /// The same bytes once more. Memory is wanted for them where they aren't shared.
    pub(super) fn again(&self, alloc: Global) -> Result<Spelled, AllocError>
        ensures { IfOk result (λ spelled. bytes_in spelled ≡ bytes_in self.now) }
    {
        match self {
            Spelled::Alone(bytes) => Ok(Spelled::Alone(bytes.as_slice().to_vec(alloc)?)),
            Spelled::Shared(bytes) => Ok(Spelled::Shared(bytes.clone()?)),
        }
    }
}
