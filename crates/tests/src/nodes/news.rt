//! What a node hears of slots that others learnt, and what is asked of it.

use super::tables_hold;
use std::test::Fail;

// What is newly learnt is followed by a question for the next slot. What is learnt never changes.
const DECIDED: &str = "\
submit 0 7 1
hear 0 1, ask 0
hear 0 2, decided 0 7:1 > learn 0 0 7:1; reply 0 7:1 21 1; send 0 ask 1 to 2
hear 0 2, decided 0 7:1
hear 0 1, decided 0 8:1
hear 0 1, ask 0 > send 0 decided 0 7:1 to 1
hear 0 1, ask 1
hear 0 1, ask 65535
hear 0 0, ask 0 > send 0 decided 0 7:1 to 0
hear 0 0, decided 1 0:0 > learn 0 1 noop; send 0 ask 2 to 0
tick 0 > send 0 ask 2 to 1 2
look 0 > 0 up 2";

// Above a gap nothing is executed. Once the gap is filled, all that is learnt is, in order.
const ABOVE_A_GAP: &str = "\
submit 0 7 1
submit 0 7 2
hear 0 1, decided 2 7:2 > learn 0 2 7:2; send 0 ask 0 to 1
hear 0 1, decided 1 7:1 > learn 0 1 7:1; send 0 ask 0 to 1
count 0 > answer 0 0 count 0
hear 0 1, ask 1 > send 0 decided 1 7:1 to 1
hear 0 2, decided 0 8:1 > learn 0 0 8:1; reply 0 7:1 21 2; reply 0 7:2 21 3; send 0 ask 3 to 2
count 0 > answer 0 3 count 0
hear 0 2, decided 4 7:4 > learn 0 4 7:4; send 0 ask 3 to 2
hear 0 1, decided 3 7:3 > learn 0 3 7:3; send 0 ask 5 to 1
look 0 > 0 up 5";

// Votes of two different nodes under one ballot, with one command: learnt, and nobody is asked.
const VOTES: &str = "\
submit 0 7 1
hear 0 1, accepted 1.2 0 7:1
hear 0 1, accepted 1.2 0 7:1
hear 0 2, accepted 2.2 0 7:1
hear 0 0, accepted 1.1 0 7:1
hear 0 2, accepted 1.2 0 7:1 > learn 0 0 7:1; reply 0 7:1 21 1
hear 0 0, accepted 1.2 0 7:1
hear 0 0, accepted 3.2 0 9:1
count 0 > answer 0 1 count 0";

// Who asked is answered, and every node hears of a vote. What is the same again is answered again, and not written.
const ANSWERS: &str = "\
hear 0 2, prepare 3.2 0 > send 0 promise 3.2 0 65535 to 2
hear 0 2, prepare 3.2 9 > send 0 promise 3.2 9 65535 to 2
hear 0 1, prepare 3.1 0 > send 0 nack 3.1 3.2 to 1
hear 0 1, accept 2.1 4 7:1 > send 0 nack 2.1 3.2 to 1
look 0 > 0 up 0 promise
hear 0 1, accept 4.1 4 7:1 > send 0 accepted 4.1 4 7:1 to 0 1 2
hear 0 1, accept 4.1 4 7:1 > send 0 accepted 4.1 4 7:1 to 0 1 2
look 0 > 0 up 0 promise vote 4
hear 0 2, prepare 3.2 0 > send 0 nack 3.2 4.1 to 2
hear 0 1, accept 4.1 2 0:0 > send 0 accepted 4.1 2 noop to 0 1 2
hear 0 2, prepare 5.2 1 > send 0 promise 5.2 1 65535 (4.1 2 noop) (4.1 4 7:1) to 2
hear 0 2, prepare 5.2 3 > send 0 promise 5.2 3 65535 (4.1 4 7:1) to 2
look 0 > 0 up 0 promise vote 4 vote 2 promise";

// A promise tells the votes of at most four slots, and ends with the last of them; else it ends with the log. The records say the same
// after a restart, the promise among them.
const RANGES: &str = "\
hear 0 1, accept 1.0 0 7:1 > send 0 accepted 1.0 0 7:1 to 0 1 2
hear 0 1, accept 1.0 1 7:1 > send 0 accepted 1.0 1 7:1 to 0 1 2
hear 0 1, accept 1.0 2 7:1 > send 0 accepted 1.0 2 7:1 to 0 1 2
hear 0 1, accept 1.0 3 7:1 > send 0 accepted 1.0 3 7:1 to 0 1 2
hear 0 1, accept 1.0 4 7:1 > send 0 accepted 1.0 4 7:1 to 0 1 2
hear 0 1, prepare 2.1 0 > send 0 promise 2.1 0 3 (1.0 0 7:1) (1.0 1 7:1) (1.0 2 7:1) (1.0 3 7:1) to 1
hear 0 1, prepare 2.1 1 > send 0 promise 2.1 1 65535 (1.0 1 7:1) (1.0 2 7:1) (1.0 3 7:1) (1.0 4 7:1) to 1
hear 0 1, prepare 2.1 4 > send 0 promise 2.1 4 65535 (1.0 4 7:1) to 1
hear 0 1, prepare 2.1 5 > send 0 promise 2.1 5 65535 to 1
hear 0 1, accept 2.1 65535 7:1 > send 0 accepted 2.1 65535 7:1 to 0 1 2
restart 0
hear 0 0, prepare 2.0 0 > send 0 nack 2.0 2.1 to 0
hear 0 1, prepare 2.1 0 > send 0 promise 2.1 0 3 (1.0 0 7:1) (1.0 1 7:1) (1.0 2 7:1) (1.0 3 7:1) to 1
hear 0 1, prepare 2.1 1 > send 0 promise 2.1 1 65534 (1.0 1 7:1) (1.0 2 7:1) (1.0 3 7:1) (1.0 4 7:1) to 1
hear 0 1, prepare 2.1 2 > send 0 promise 2.1 2 65535 (1.0 2 7:1) (1.0 3 7:1) (1.0 4 7:1) (2.1 65535 7:1) to 1
hear 0 1, prepare 2.1 5 > send 0 promise 2.1 5 65535 (2.1 65535 7:1) to 1
hear 0 1, prepare 2.1 65535 > send 0 promise 2.1 65535 65535 (2.1 65535 7:1) to 1";

// how many nodes there are, and their steps
const TABLES: [(u8, &str); 5] = [
    (3, DECIDED),
    (3, ABOVE_A_GAP),
    (3, VOTES),
    (3, ANSWERS),
    (3, RANGES),
];

#[test]
fn what_is_heard_is_learnt_and_answered(rt: HostRuntime) -> Result<(), Fail> {
    tables_hold(&rt, rt.alloc(), TABLES.as_slice())
}
