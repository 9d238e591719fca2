//! Larger fleets, frames that are lost, and what is sent again.

use super::tables_hold;
use std::test::Fail;

// Three of five nodes decide: two of them, and one more.
const OF_FIVE: &str = "\
submit 4 9 1
timeout 4 > send 4 prepare 1.4 0 to 0 1 2 3 4
lose 0
lose 1
deliver 2 > send 2 promise 1.4 0 65535 to 4
deliver 3 > send 3 promise 1.4 0 65535 to 4
deliver 4 > send 4 promise 1.4 0 65535 to 4
deliver 5
deliver 6
deliver 7 > send 4 accept 1.4 0 9:1 to 0 1 2 3 4
lose 10
lose 11
deliver 8 > send 0 accepted 1.4 0 9:1 to 0 1 2 3 4
deliver 9 > send 1 accepted 1.4 0 9:1 to 0 1 2 3 4
deliver 12 > send 4 accepted 1.4 0 9:1 to 0 1 2 3 4
deliver 17
deliver 22
deliver 27 > learn 4 0 9:1; reply 4 9:1 21 1
flush > learn 0 0 9:1; learn 1 0 9:1; learn 2 0 9:1; learn 3 0 9:1
look 3 > 3 up 1 promise";

// Four of seven nodes decide: the later four the first slot, and the first four the second.
const OF_SEVEN: &str = "\
submit 6 1 1
submit 6 2 1
timeout 6 > send 6 prepare 1.6 0 to 0 1 2 3 4 5 6
lose 0
lose 1
lose 2
deliver 3 > send 3 promise 1.6 0 65535 to 6
deliver 4 > send 4 promise 1.6 0 65535 to 6
deliver 5 > send 5 promise 1.6 0 65535 to 6
deliver 6 > send 6 promise 1.6 0 65535 to 6
deliver 7
deliver 8
deliver 9
deliver 10 > send 6 accept 1.6 0 1:1 to 0 1 2 3 4 5 6; send 6 accept 1.6 1 2:1 to 0 1 2 3 4 5 6
lose 11
lose 12
lose 13
lose 22
lose 23
lose 24
flush > learn 0 0 1:1; learn 1 0 1:1; learn 2 0 1:1; learn 3 0 1:1; learn 4 0 1:1; learn 5 0 1:1; learn 6 0 1:1; reply 6 1:1 21 1; \
    learn 0 1 2:1; learn 1 1 2:1; learn 2 1 2:1; learn 3 1 2:1; learn 4 1 2:1; learn 5 1 2:1; learn 6 1 2:1; reply 6 2:1 21 2";

// A tick asks again the nodes whose promise didn't count, and then for the votes for each open proposal.
const SENT_AGAIN: &str = "\
tick 0 > send 0 ask 0 to 1 2
submit 0 7 1
submit 0 8 1
timeout 0 > send 0 prepare 1.0 0 to 0 1 2
deliver 2 > send 0 promise 1.0 0 65535 to 0
deliver 5
tick 0 > send 0 prepare 1.0 0 to 1 2; send 0 ask 0 to 1 2
lose 3
lose 4
deliver 6 > send 1 promise 1.0 0 65535 to 0
deliver 10 > send 0 accept 1.0 0 7:1 to 0 1 2; send 0 accept 1.0 1 8:1 to 0 1 2
lose 11
lose 12
lose 13
lose 14
lose 15
lose 16
tick 0 > send 0 accept 1.0 0 7:1 to 0 1 2; send 0 accept 1.0 1 8:1 to 0 1 2; send 0 ask 0 to 1 2
flush > learn 0 0 7:1; reply 0 7:1 21 1; learn 1 0 7:1; learn 2 0 7:1; learn 0 1 8:1; reply 0 8:1 21 2; learn 1 1 8:1; learn 2 1 8:1";

// A refusal of the campaign's ballot ends the campaign, and that of another doesn't. The next round is above all refusals.
const REFUSED: &str = "\
submit 0 7 1
timeout 0 > send 0 prepare 1.0 0 to 0 1 2
deliver 0 > send 0 promise 1.0 0 65535 to 0
deliver 1 > send 1 promise 1.0 0 65535 to 0
deliver 3
hear 0 1, nack 1.0 4.1
deliver 4
tick 0 > send 0 ask 0 to 1 2
timeout 0 > send 0 prepare 5.0 0 to 0 1 2
hear 0 1, nack 1.0 9.1
deliver 7 > send 0 promise 5.0 0 65535 to 0
deliver 8 > send 1 promise 5.0 0 65535 to 0
deliver 10
deliver 11 > send 0 accept 5.0 0 7:1 to 0 1 2
hear 0 2, nack 5.0 6.2
submit 0 8 1
tick 0 > send 0 ask 0 to 1 2
timeout 0 > send 0 prepare 10.0 0 to 0 1 2
look 0 > 0 up 0 round promise round promise round";

// Two nodes begin at once: the lower ballot is refused where the higher is promised, and what was voted for goes on.
const RIVALS: &str = "\
submit 0 7 1
timeout 0 > send 0 prepare 1.0 0 to 0 1 2
deliver 0 > send 0 promise 1.0 0 65535 to 0
deliver 1 > send 1 promise 1.0 0 65535 to 0
timeout 1 > send 1 prepare 1.1 0 to 0 1 2
deliver 3
deliver 4 > send 0 accept 1.0 0 7:1 to 0 1 2
deliver 6 > send 1 promise 1.1 0 65535 to 1
deliver 9 > send 1 nack 1.0 1.1 to 0
deliver 8 > send 0 accepted 1.0 0 7:1 to 0 1 2
deliver 2 > send 2 promise 1.0 0 65535 to 0
flush > learn 0 0 7:1; reply 0 7:1 21 1; learn 1 0 7:1; learn 2 0 7:1";

// Where promises tell of the first slot alone, it gathers further on once that is learnt. The ask stands last.
const GATHERED_ON: &str = "\
submit 0 7 1
submit 0 7 2
timeout 0 > send 0 prepare 1.0 0 to 0 1 2
hear 0 0, promise 1.0 0 0
hear 0 1, promise 1.0 0 65535 > send 0 accept 1.0 0 7:1 to 0 1 2
hear 0 1, decided 0 7:1 > learn 0 0 7:1; reply 0 7:1 21 1; send 0 prepare 1.0 1 to 0 1 2; send 0 ask 1 to 1
hear 0 1, promise 1.0 1 65535
hear 0 2, promise 1.0 1 65535 > send 0 accept 1.0 1 7:2 to 0 1 2
look 0 > 0 up 1 round";

// Below a slot that is learnt every gap is filled with a no-op, whatever waits. What is learnt meanwhile isn't sent again.
const GAPS_FILLED: &str = "\
hear 0 1, decided 2 7:1 > learn 0 2 7:1; send 0 ask 0 to 1
submit 0 8 1
timeout 0 > send 0 prepare 1.0 0 to 0 1 2
hear 0 1, promise 1.0 0 65535
hear 0 2, promise 1.0 0 65535 > send 0 accept 1.0 0 noop to 0 1 2; send 0 accept 1.0 1 noop to 0 1 2; send 0 accept 1.0 3 8:1 to 0 1 2
hear 0 1, decided 0 0:0 > learn 0 0 noop; send 0 ask 1 to 1
tick 0 > send 0 accept 1.0 1 noop to 0 1 2; send 0 accept 1.0 3 8:1 to 0 1 2; send 0 ask 1 to 1 2
hear 0 1, decided 1 0:0 > learn 0 1 noop; send 0 ask 3 to 1
hear 0 1, accepted 1.0 3 8:1
hear 0 2, accepted 1.0 3 8:1 > learn 0 3 8:1; reply 0 8:1 21 4
look 0 > 0 up 4 round";

// The window has eight slots, and goes on as the first of them is learnt.
const FULL_WINDOW: &str = "\
submit 0 7 1
submit 0 7 2
submit 0 7 3
submit 0 7 4
submit 0 7 5
submit 0 7 6
submit 0 7 7
submit 0 7 8
submit 0 7 9
timeout 0 > send 0 prepare 1.0 0 to 0 1 2
hear 0 0, promise 1.0 0 65535
hear 0 1, promise 1.0 0 65535 > send 0 accept 1.0 0 7:1 to 0 1 2; send 0 accept 1.0 1 7:2 to 0 1 2; send 0 accept 1.0 2 7:3 to 0 1 2; \
    send 0 accept 1.0 3 7:4 to 0 1 2; send 0 accept 1.0 4 7:5 to 0 1 2; send 0 accept 1.0 5 7:6 to 0 1 2; \
    send 0 accept 1.0 6 7:7 to 0 1 2; send 0 accept 1.0 7 7:8 to 0 1 2
hear 0 1, decided 0 7:1 > learn 0 0 7:1; reply 0 7:1 21 1; send 0 accept 1.0 8 7:9 to 0 1 2; send 0 ask 1 to 1";

// The told vote of the highest ballot is proposed again, and a gap below one is filled with a no-op.
const TOLD: &str = "\
submit 0 3 1
timeout 0 > send 0 prepare 1.0 0 to 0 1 2
hear 0 1, nack 1.0 5.0
timeout 0 > send 0 prepare 6.0 0 to 0 1 2
hear 0 0, promise 6.0 0 65535 (2.0 0 7:1) (3.0 2 8:1)
hear 0 1, promise 6.0 0 65535 (4.0 0 9:1) (1.0 2 5:1) > send 0 accept 6.0 0 9:1 to 0 1 2; send 0 accept 6.0 1 noop to 0 1 2; \
    send 0 accept 6.0 2 8:1 to 0 1 2; send 0 accept 6.0 3 3:1 to 0 1 2";

// The least of the last slots is the last to be proposed, and a vote behind it isn't told. Who promised further on isn't asked again.
const ENDS: &str = "\
submit 0 7 1
submit 0 7 2
submit 0 7 3
timeout 0 > send 0 prepare 1.0 0 to 0 1 2
hear 0 0, promise 1.0 0 1
hear 0 1, promise 1.0 0 65535 (1.0 2 9:9) > send 0 accept 1.0 0 7:1 to 0 1 2; send 0 accept 1.0 1 7:2 to 0 1 2
hear 0 1, decided 0 7:1 > learn 0 0 7:1; reply 0 7:1 21 1; send 0 ask 1 to 1
hear 0 1, decided 1 7:2 > learn 0 1 7:2; reply 0 7:2 21 2; send 0 prepare 1.0 2 to 0 1 2; send 0 ask 2 to 1
tick 0 > send 0 prepare 1.0 2 to 0 1 2; send 0 ask 2 to 1 2
hear 0 2, promise 1.0 2 2
tick 0 > send 0 prepare 1.0 2 to 0 1; send 0 ask 2 to 1 2
hear 0 1, promise 1.0 2 65535 > send 0 accept 1.0 2 7:3 to 0 1 2";

// The first slot is filled though nothing waits, and no other. Without a request that waits it gathers no further.
const NOTHING_WAITS: &str = "\
timeout 0 > send 0 prepare 1.0 0 to 0 1 2
hear 0 0, promise 1.0 0 0
hear 0 1, promise 1.0 0 0 > send 0 accept 1.0 0 noop to 0 1 2
hear 0 1, decided 0 0:0 > learn 0 0 noop; send 0 ask 1 to 1";

// A promise counts once a node, for the ballot and the first slot, while it gathers; a refusal of another ballot ends nothing.
const COUNTS: &str = "\
timeout 0 > send 0 prepare 1.0 0 to 0 1 2
timeout 0 > send 0 prepare 2.0 0 to 0 1 2
hear 0 1, promise 2.0 0 65535
hear 0 1, promise 2.0 0 65535
hear 0 2, promise 1.0 0 65535
hear 0 2, promise 2.0 1 65535
hear 0 1, nack 1.0 9.0
tick 0 > send 0 prepare 2.0 0 to 0 2; send 0 ask 0 to 1 2
hear 0 2, promise 2.0 0 65535 (1.0 0 7:1) > send 0 accept 2.0 0 7:1 to 0 1 2
hear 0 0, promise 2.0 0 65535 (2.0 0 8:1)";

// how many nodes there are, and their steps
const TABLES: [(u8, &str); 12] = [
    (5, OF_FIVE),
    (7, OF_SEVEN),
    (3, SENT_AGAIN),
    (3, REFUSED),
    (3, RIVALS),
    (3, GATHERED_ON),
    (3, GAPS_FILLED),
    (3, FULL_WINDOW),
    (3, TOLD),
    (3, ENDS),
    (3, NOTHING_WAITS),
    (3, COUNTS),
];

#[test]
fn losses_are_made_up_for(rt: HostRuntime) -> Result<(), Fail> {
    tables_hold(&rt, rt.alloc(), TABLES.as_slice())
}
