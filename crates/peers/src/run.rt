//! The packets of a run.

ghost use Rattle.std.specs.Prelude.{◌≡◌, ◌≢◌, ◌<◌, ◌≤◌, ◌↔◌, ℕ, List, take, length, IsOk, IfOk, IsTrue};
ghost use Rattle.std.specs.Result.{IsErrOf};
ghost use Rattle.peers.specs.Hmac.{block_of};
ghost use Rattle.peers.specs.Sealing.{framed, packet_of};

use crate::dropped::Dropped;
use crate::key::{DIGEST, Key};
use fields::push_u32;
use std::alloc::{AllocError, Global};
use std::marker::Model;

/// The bytes of the length before a packet on a stream.
pub(crate) const LENGTH: usize = 4;

/// The bytes of a run's name.
pub const NAME: usize = 16;

/// The bytes before the frame in a packet: the run's name and the digest.
pub const HEAD: usize = NAME + DIGEST;

/// A frame has at most this many bytes.
pub const LONGEST_FRAME: usize = 60_000;

/// A packet has at most this many bytes.
pub const LONGEST_PACKET: usize = HEAD + LONGEST_FRAME;

/// A run, as its nodes know it: its name, which every packet tells, and its key, which none does.
#[derive(Drop)]
pub struct Run {
    name: [u8; NAME],
    key: Key,
}

impl Model for Run {
    ghost use Rattle.std.specs.Prelude.{◌≡◌, length};
    ghost use Rattle.peers.specs.Sealing.{Secret};
    ghost use Rattle.peers.specs.declared.run.TheConstants.{NAME};

    ghost Value = { Secret };

    ghost view = { λ run. record { name = run.name; block = run.key } };

    ghost invariant = { λ run. length run.name ≡ NAME };
}

impl Run {
    /// The run of this name under this key.
    pub fn new(name: [u8; NAME], key: &[u8]) -> Run
        ensures { result ≡ record { name = name; block = block_of key.now } }
    {
        Run {
            name,
            key: Key::new(key),
        }
    }

    /// The packet of the frame, behind its length.
    pub fn seal(&self, alloc: Global, frame: &[u8]) -> Result<Vec<u8>, AllocError>
        requires { length frame.now ≤ LONGEST_FRAME }
        ensures { IfOk result (λ packet. packet.items ≡ framed (packet_of self.now frame.now)) }
    {
        let len = HEAD + frame.len();
        let mut out = Vec::with_capacity(alloc, LENGTH + len)?;
        push_u32(&mut out, len as u32)?;
        out.extend_from_slice(&self.name)?;
        out.extend_from_slice(&self.key.authenticate(&self.name, frame))?;
        out.extend_from_slice(frame)?;
        Ok(out)
    }

    /// The frame in a packet of this run, or why the packet is dropped.
    pub fn open<'a>(&self, packet: &'a [u8]) -> Result<&'a [u8], Dropped>
        ensures opened { IfOk result (λ frame. packet.now ≡ packet_of self.now frame.now) }
        ensures each_sealed { (frame : List ℕ) → packet.now ≡ packet_of self.now frame → IsOk result }

        // Which of the faults comes.
        ensures short { IsErrOf result Dropped.Short ↔ (length packet.now < HEAD) }
        ensures another_run { IsErrOf result Dropped.AnotherRun → take NAME packet.now ≢ self.now.name }
        ensures digest { IsErrOf result Dropped.Digest → take NAME packet.now ≡ self.now.name }
    {
        let own = self.name.as_slice();
        if packet.len() < HEAD {
            return Err(Dropped::Short);
        }
        let (name, rest) = packet.split_at(NAME);
        if name != own {
            return Err(Dropped::AnotherRun);
        }
        let (digest, frame) = rest.split_at(DIGEST);
        if are_equal(digest, &self.key.authenticate(name, frame)) {
            return Ok(frame);
        }
        Err(Dropped::Digest)
    }
}

/// Whether the digests are equal. It takes as long wherever they differ, so that a stranger can't find one byte by byte.
fn are_equal(given: &[u8], digest: &[u8; DIGEST]) -> bool
    requires { length given.now ≡ DIGEST }
    ensures { IsTrue result ↔ (given.now ≡ digest.now) }
{
    let mut same = true;
    'bytes: for i in 0..DIGEST {
        same = same & (given[i] == digest[i]);
    }
    same
}
