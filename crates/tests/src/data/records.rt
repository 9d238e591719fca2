//! Records of promises and rounds, with their bytes. Records of votes are lines of `conformance`' input.

use synod::Ballot;
use wire::{ballot_of_record, ballot_record, round_of_record, round_record};

const BALLOT: [u8; 9] = [0, 0, 0, 0, 0, 0, 1, 2, 6];

const ROUND: [u8; 8] = [0, 0, 0, 0, 0, 0, 1, 2];

// Bytes that are the record of no promise: one less, a node that is none, the round 0, and one more.
const NO_BALLOTS: [&[u8]; 4] = [
    b"\x00\x00\x00\x00\x00\x00\x01\x02",
    b"\x00\x00\x00\x00\x00\x00\x01\x02\x07",
    b"\x00\x00\x00\x00\x00\x00\x00\x00\x06",
    b"\x00\x00\x00\x00\x00\x00\x01\x02\x06\x00",
];

#[test]
fn ballots_and_rounds(rt: HostRuntime) {
    assert!(rt; is_ballot(0x0102, 6, &BALLOT));
    for &bytes in &NO_BALLOTS {
        assert!(rt; ballot_of_record(bytes).is_none(), "{bytes:?}");
    }
    assert!(rt; is_round_recorded());
    assert!(rt; round_of_record(&[0; 8]).is_none() && round_of_record(&[1; 7]).is_none());
}

fn is_round_recorded() -> bool {
    round_record(0x0102).as_slice() == ROUND.as_slice() && round_of_record(&ROUND) == Some(0x0102)
}

/// Whether the record of this ballot has these bytes, and is read as it.
fn is_ballot(round: u64, node: u8, bytes: &[u8]) -> bool {
    let Some(ballot) = Ballot::new(round, node) else {
        return false;
    };
    ballot_record(ballot).as_slice() == bytes && ballot_of_record(bytes) == Some(ballot)
}
