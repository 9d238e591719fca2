//! Laws of streams: each is the contract of a function that does nothing.

ghost use Rattle.std.specs.Prelude.{◌≡◌, ℕ, List, ◌++◌, flat_map, All};
ghost use Rattle.peers.specs.Sealing.{framed};
ghost use Rattle.peers.specs.Cutting.{IsPacket, Streams, Stops};

/// However a stream is cut in reads, and whenever it is asked, it hands out the packets of all its bytes, and no others.
pub fn packets_are_cut_in_one_way()
    ensures together { (fed rest : List ℕ) (packets : List (List ℕ)) → Streams fed packets rest
        → (fed ≡ flat_map framed packets ++ rest) × All IsPacket packets }
    ensures one { (fed rest left : List ℕ) (packets others : List (List ℕ)) → Streams fed packets rest → Stops rest
        → Streams fed others left → Stops left → (packets ≡ others) × (rest ≡ left) }
{}
