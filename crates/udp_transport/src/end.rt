//! One node's end of a transport.

ghost use Rattle.std.specs.Prelude.{◌≡◌, ◌<◌, ◌++◌, ◌∷◌, [], ℕ, length, IfOk, IsTrue};
ghost use Rattle.std.specs.Global.{Vec};
ghost use Rattle.udp_transport.specs.Waiting.{HandsOut, TakesIn};

use super::room::Room;
use cluster::{MOST_PUMPED, TransportFault};
use std::alloc::Global;
use std::collections::VecDeque;
use std::io;
use std::net::{Ipv4Addr, Net, SocketAddr, UdpSocket};

/// So many datagrams are taken in at once, at most. The system's buffer of 212,992 bytes holds 256, so it is empty then; and
/// whoever sends without end keeps nobody waiting.
pub(crate) const MOST_TAKEN: usize = 512;

/// So many datagrams wait at most, so that whoever sends without end doesn't take all memory. A pump that delivers as many ends with a
/// fault in any case.
pub(crate) const MOST_WAITING: usize = MOST_PUMPED as usize;

/// A node's socket, where it is found, and what has come to it.
#[derive(Drop)]
pub(crate) struct End {
    socket: UdpSocket,
    address: SocketAddr,
    // What has come, the oldest first.
    waiting: VecDeque<Vec<u8>>,
}

impl End {
    /// A socket on a port that the system picks. No call of it waits, and nothing has come.
    pub(crate) fn bind<N: Net>(net: &N, alloc: Global) -> io::Result<End>
        ensures { IfOk result (λ end. end.waiting.items ≡ []) }
    {
        let socket = UdpSocket::bind(net, SocketAddr::from((Ipv4Addr::LOCALHOST, 0)))?;
        let address = made_ready(&socket)?;
        Ok(End {
            socket,
            address,
            waiting: VecDeque::new(alloc),
        })
    }

    /// Where it is found.
    pub(crate) fn address(&self) -> SocketAddr
        ensures { result ≡ self.now.address }
    {
        self.address
    }

    /// Sends the bytes to an address.
    pub(crate) fn send(&self, bytes: &[u8], address: SocketAddr) -> Result<(), TransportFault> {
        match self.socket.send_to(bytes, address) {
            Ok(sent) if sent == bytes.len() => Ok(()),
            _ => Err(TransportFault),
        }
    }

    /// What has come joins the queue. What can't join it, as there is no memory or the queue is full, stays with the system.
    #[tactic(auto, using(crate::proofs::Queueing::takes_none, crate::proofs::Queueing::takes_another, crate::proofs::Queueing::takes_no_more))]
    pub(crate) fn take_in(&mut self, alloc: Global, room: &mut Room)
        ensures { TakesIn MOST_TAKEN self.old self.new }
    {
        for _ in 0..MOST_TAKEN {
            if !self.take_one(alloc, room) {
                return;
            }
        }
    }

    // The next that has come joins the queue; whether one did.
    fn take_one(&mut self, alloc: Global, room: &mut Room) -> bool
        ensures joins { IsTrue result → (datagram : Vec ℕ) × (self.new.waiting.items ≡ self.old.waiting.items ++ datagram ∷ []) }
        ensures room { IsTrue result → length self.old.waiting.items < MOST_WAITING }
        ensures none { ¬ IsTrue result → self.new.waiting.items ≡ self.old.waiting.items }
        ensures place { self.new.address ≡ self.old.address }
    {
        if self.waiting.len() >= MOST_WAITING {
            return false;
        }
        // Its place comes first: what was received can't be put back.
        if let Err(_) = self.waiting.try_reserve(1) {
            return false;
        }
        let Ok(Some(datagram)) = room.receive(alloc, &self.socket) else {
            return false;
        };
        let _ = self.waiting.push_back(datagram);
        true
    }

    /// The oldest that waits, or what has come to the socket where none does; or None where nothing has.
    pub(crate) fn next(
        &mut self,
        alloc: Global,
        room: &mut Room,
    ) -> Result<Option<Vec<u8>>, TransportFault>
        ensures { HandsOut result self.old self.new }
    {
        match self.waiting.pop_front() {
            Some(datagram) => Ok(Some(datagram)),
            None => room.receive(alloc, &self.socket),
        }
    }
}

// Its address, once no call of it waits.
fn made_ready(socket: &UdpSocket) -> io::Result<SocketAddr> {
    socket.set_nonblocking(true)?;
    socket.local_addr()
}
