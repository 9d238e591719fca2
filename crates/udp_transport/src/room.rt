//! Room for a datagram that is received.

ghost use Rattle.std.specs.Prelude.{◌≡◌, ◌≤◌, OnOk, take, vec_len};

use cluster::TransportFault;
use std::alloc::{AllocError, Global};
use std::io::ErrorKind;
use std::mem;
use std::net::UdpSocket;

/// A datagram of UDP has no more bytes, so none is cut short.
const MOST_BYTES: usize = 65_535;

/// Room for the longest datagram.
#[derive(Drop)]
pub(crate) struct Room {
    bytes: Vec<u8>,
}

impl Room {
    /// Room for one. An error is that of memory.
    pub(crate) fn new(alloc: Global) -> Result<Room, AllocError> {
        let mut room = Room {
            bytes: Vec::new(alloc),
        };
        room.grow()?;
        Ok(room)
    }

    /// What has come to the socket next, or None where nothing has. Whatever is received is handed out: memory is refused before.
    pub(crate) fn receive(
        &mut self,
        alloc: Global,
        socket: &UdpSocket,
    ) -> Result<Option<Vec<u8>>, TransportFault> {
        self.grow()?;
        match socket.recv_from(self.bytes.as_mut_slice()) {
            Ok((length, _from)) => Ok(Some(self.hand_out(alloc, length))),
            Err(error) if error.kind() == ErrorKind::WouldBlock => Ok(None),
            Err(_) => Err(TransportFault),
        }
    }

    // It is as long as any datagram.
    fn grow(&mut self) -> Result<(), AllocError>
        ensures { OnOk result (vec_len self.new.bytes ≡ MOST_BYTES) }
    {
        self.bytes.resize(MOST_BYTES, 0)
    }

    // So many of its bytes, as a datagram. Where memory is refused for a copy these are the room's own, and it grows anew.
    fn hand_out(&mut self, alloc: Global, length: usize) -> Vec<u8>
        requires { length ≤ vec_len self.old.bytes }
        ensures { result.items ≡ take length self.old.bytes.items }
    {
        if let Ok(copy) = self.bytes[..length].to_vec(alloc) {
            return copy;
        }
        let mut bytes = mem::replace(&mut self.bytes, Vec::new(alloc));
        bytes.truncate(length);
        bytes
    }
}
