//! The fields, as bytes at the end of others. Each value of the types fits.

ghost use Rattle.std.specs.Prelude.{◌≡◌, ◌+◌, ◌*◌, pos, ◌≤◌, ◌++◌, length, All, OnErr, OnOk};
ghost use Rattle.std.specs.List.{flat_map};
ghost use Rattle.std.specs.Int.{cast_unsigned, w64};
ghost use Rattle.byteorder.specs.Endian.{big_bytes};
ghost use Rattle.tpoint.specs.Ids.{IsId};
ghost use Rattle.tpoint.specs.Instants.{IsInstant};
ghost use Rattle.fields.specs.Spelling.{id_bytes, triple_bytes, interp_byte, sequence_bytes, SequenceFits};

use byteorder::{BigEndian, ByteOrder};
use std::alloc::AllocError;
use tpoint::{Id, Instant, Interp, LONGEST_ID, MOST_POINTS, Point, Seq};

/// A triple takes this many bytes.
pub const TRIPLE_LEN: usize = 24;

/// A number in two bytes.
pub fn push_u16(out: &mut Vec<u8>, n: u16) -> Result<(), AllocError>
    ensures spelled { OnOk result (out.new.items ≡ out.old.items ++ big_bytes 2 n) }
    ensures err { OnErr result (out.new.items ≡ out.old.items) }
{
    let mut bytes = [0; 2];
    BigEndian::write_u16(&mut bytes, n);
    out.extend_from_slice(&bytes)
}

/// A number in four bytes.
pub fn push_u32(out: &mut Vec<u8>, n: u32) -> Result<(), AllocError>
    ensures spelled { OnOk result (out.new.items ≡ out.old.items ++ big_bytes 4 n) }
    ensures err { OnErr result (out.new.items ≡ out.old.items) }
{
    let mut bytes = [0; 4];
    BigEndian::write_u32(&mut bytes, n);
    out.extend_from_slice(&bytes)
}

/// A number in eight bytes.
pub fn push_u64(out: &mut Vec<u8>, n: u64) -> Result<(), AllocError>
    ensures spelled { OnOk result (out.new.items ≡ out.old.items ++ big_bytes 8 n) }
    ensures err { OnErr result (out.new.items ≡ out.old.items) }
{
    let mut bytes = [0; 8];
    BigEndian::write_u64(&mut bytes, n);
    out.extend_from_slice(&bytes)
}

/// An id: its length, and its text.
pub fn push_id(out: &mut Vec<u8>, id: &Id) -> Result<(), AllocError>
    ensures spelled { OnOk result (out.new.items ≡ out.old.items ++ id_bytes id.now) }
    ensures err { OnErr result (out.new.items ≡ out.old.items) }
    ensures fits { IsId id.now }
{
    let text = id.bytes();
    // All that grows is grown first, so that nothing is refused half way.
    out.try_reserve(1 + text.len())?;
    out.push(text.len() as u8)?;
    out.extend_from_slice(text)
}

/// How many bytes an id takes.
pub fn id_len(id: &Id) -> usize
    ensures value { result ≡ length (id_bytes id.now) }
    ensures most { result ≤ LONGEST_ID + 1 }
{
    1 + id.bytes().len()
}

/// A sequence: its interpolation, the count of its triples, and the triples.
#[tactic(auto, using(crate::proofs::SequenceLemmas::sequence_from_valid))]
pub fn push_sequence(out: &mut Vec<u8>, seq: &Seq) -> Result<(), AllocError>
    ensures spelled { OnOk result (out.new.items ≡ out.old.items ++ sequence_bytes seq.now) }
    ensures fits { OnOk result (SequenceFits MOST_POINTS seq.now) }
{
    let points = seq.points();
    out.push(code_of(seq.interp()))?;
    push_u16(out, points.len() as u16)?;
    push_triples(out, points)
}

/// How many bytes a sequence takes.
#[tactic(auto, using(crate::proofs::LengthLemmas::sequence_len))]
pub fn sequence_len(seq: &Seq) -> usize
    ensures value { result ≡ length (sequence_bytes seq.now) }
    ensures counted { result ≡ 3 + TRIPLE_LEN * length seq.now.points }
{
    3 + TRIPLE_LEN * seq.points().len()
}

fn code_of(interp: Interp) -> u8
    ensures { result ≡ interp_byte interp }
{
    match interp {
        Interp::Discrete => 1,
        Interp::Step => 2,
        Interp::Linear => 3,
    }
}

fn push_triples(out: &mut Vec<u8>, points: &[Point]) -> Result<(), AllocError>
    ensures spelled { OnOk result (out.new.items ≡ out.old.items ++ flat_map triple_bytes points.now) }
    ensures instants { OnOk result (All (λ p. IsInstant (pos p.t)) points.now) }
{
    for point in points {
        push_triple(out, point)?;
    }
    Ok(())
}

/// A triple: an instant, and two coordinates in two's complement.
pub fn push_triple(out: &mut Vec<u8>, point: &Point) -> Result<(), AllocError>
    ensures spelled { OnOk result (out.new.items ≡ out.old.items ++ triple_bytes point.now) }
    ensures err { OnErr result (out.new.items ≡ out.old.items) }
    ensures instant { IsInstant (pos point.now.t) }
{
    // Put at the end at once, and not number by number: most bytes that are pushed are those of triples.
    out.extend_from_slice(&spelled_triple(point))
}

#[tactic(auto, unfolding(crate::specs::Spelling::triple_bytes))]
fn spelled_triple(point: &Point) -> [u8; TRIPLE_LEN]
    ensures spelled { result ≡ triple_bytes point.now }
    ensures instant { IsInstant (pos point.now.t) }
{
    let mut bytes = [0; TRIPLE_LEN];
    BigEndian::write_u64(&mut bytes, ms_of(point.t));
    BigEndian::write_u64(&mut bytes[8..], point.x.cast_unsigned());
    BigEndian::write_u64(&mut bytes[16..], point.y.cast_unsigned());
    bytes
}

fn ms_of(t: Instant) -> u64
    ensures value { result ≡ t }
    ensures instant { IsInstant (pos t) }
{
    t.ms() as u64
}
