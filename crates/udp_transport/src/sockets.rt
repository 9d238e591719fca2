//! The sockets.

ghost use Rattle.std.specs.Prelude.{◌≡◌, ◌+◌, [], IfOk, IsErr, IsSome, None, OnOk, option_map, slice_get};
ghost use Rattle.udp_transport.specs.Counts.{socket_count};
ghost use Rattle.udp_transport.specs.Waiting.{ChangesAt, HandsOut, TakesIn};
ghost use Rattle.udp_transport.specs.declared.end.TheConstants.{MOST_TAKEN};

use super::end::End;
use super::room::Room;
use cluster::{Transport, TransportFault};
use std::alloc::Global;
use std::io;
use std::net::{Net, SocketAddr};
use wire::{NodeId, Nodes};

/// A UDP socket for each node of a run, on 127.0.0.1, on a port that the system picks. No call waits.
///
/// Before a datagram is sent, what has come to its receiver joins a queue, so the system's buffer is empty for it. What the system
/// drops all the same is lost, without an error; so it never tells.
pub struct Sockets {
    ends: Vec<End>,
    room: Room,
}

// By hand, so that a crate that drops one proves nothing of what lies within.
impl Drop for Sockets {
    fn drop(self) {
        let Sockets { ends, room } = self;
        drop(ends);
        drop(room);
    }
}

impl Sockets {
    /// Sockets for so many nodes. An error is the system's, where it has none left, or no memory.
    pub fn bind<N: Net>(net: &N, alloc: Global, count: Nodes) -> io::Result<Sockets>
        ensures { IfOk result (λ sockets. socket_count sockets ≡ count) }
    {
        let mut sockets = Sockets {
            ends: Vec::new(alloc),
            room: Room::new(alloc)?,
        };
        for _ in 0..count.count() {
            sockets.bind_another(net, alloc)?;
        }
        Ok(sockets)
    }

    // One more.
    fn bind_another<N: Net>(&mut self, net: &N, alloc: Global) -> io::Result<()>
        ensures { OnOk result (socket_count self.new ≡ socket_count self.old + 1) }
    {
        let end = End::bind(net, alloc)?;
        Ok(self.ends.push(end)?)
    }

    /// Where a node's socket is found, or None where there is no such node.
    pub fn address(&self, node: NodeId) -> Option<SocketAddr>
        ensures { result ≡ option_map (λ end. end.address) (slice_get self.now.ends.items node) }
    {
        match self.ends.get(usize::from(node.value())) {
            Some(end) => Some(end.address()),
            None => None,
        }
    }
}

impl Transport for Sockets {
    ghost tape = { λ _. [] };

    ghost Tells = { λ _. ⊥ };

    fn send(
        &mut self,
        alloc: Global,
        from: NodeId,
        to: NodeId,
        bytes: &[u8],
    ) -> Result<(), TransportFault>
        ensures takes_in { IsSome (slice_get self.old.ends.items to)
            → ChangesAt to (TakesIn MOST_TAKEN) self.old self.new }
        ensures no_node { slice_get self.old.ends.items to ≡ None → IsErr result × (self.new ≡ self.old) }
    {
        let receiver = self
            .ends
            .get_mut(usize::from(to.value()))
            .ok_or(TransportFault)?;
        receiver.take_in(alloc, &mut self.room);
        let address = receiver.address();
        let sender = self
            .ends
            .get(usize::from(from.value()))
            .ok_or(TransportFault)?;
        sender.send(bytes, address)
    }

    fn poll(&mut self, alloc: Global, node: NodeId) -> Result<Option<Vec<u8>>, TransportFault>
        ensures hands_out { IsSome (slice_get self.old.ends.items node)
            → ChangesAt node (HandsOut result) self.old self.new }
        ensures no_node { slice_get self.old.ends.items node ≡ None → IsErr result × (self.new ≡ self.old) }
    {
        let end = self
            .ends
            .get_mut(usize::from(node.value()))
            .ok_or(TransportFault)?;
        end.next(alloc, &mut self.room)
    }
}
