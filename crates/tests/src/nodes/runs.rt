//! Whole runs of three nodes.

use super::tables_hold;
use std::test::Fail;

// One request: eighteen frames, and three nodes that learn it. A frame that comes again changes nothing.
const ONE_REQUEST: &str = "\
submit 0 7 1
timeout 0 > send 0 prepare 1.0 0 to 0 1 2
deliver 0 > send 0 promise 1.0 0 65535 to 0
deliver 1 > send 1 promise 1.0 0 65535 to 0
deliver 2 > send 2 promise 1.0 0 65535 to 0
deliver 3
deliver 4 > send 0 accept 1.0 0 7:1 to 0 1 2
deliver 5
deliver 6 > send 0 accepted 1.0 0 7:1 to 0 1 2
deliver 7 > send 1 accepted 1.0 0 7:1 to 0 1 2
deliver 8 > send 2 accepted 1.0 0 7:1 to 0 1 2
deliver 9
deliver 10
deliver 11
count 0 > answer 0 0 count 0
deliver 12 > learn 0 0 7:1; reply 0 7:1 21 1
deliver 13 > learn 1 0 7:1
deliver 14 > learn 2 0 7:1
deliver 15
deliver 16
deliver 17
flush
look 0 > 0 up 1 round promise vote 0
look 1 > 1 up 1 promise vote 0
count 0 > answer 0 1 count 0
deliver 12
deliver 6 > send 0 accepted 1.0 0 7:1 to 0 1 2
look 0 > 0 up 1 round promise vote 0";

// A node that is restarted asks the others for what they learnt. A campaign that leads prepares once for all its slots.
const RESTARTED: &str = "\
submit 0 7 1
timeout 0 > send 0 prepare 1.0 0 to 0 1 2
flush > learn 0 0 7:1; reply 0 7:1 21 1; learn 1 0 7:1; learn 2 0 7:1
restart 0
look 0 > 0 up 0 round promise vote 0
count 0 > answer 0 0 count 0
tick 0 > send 0 ask 0 to 1 2
deliver 18 > send 1 decided 0 7:1 to 0
deliver 19 > send 2 decided 0 7:1 to 0
deliver 20 > learn 0 0 7:1; send 0 ask 1 to 1
flush
submit 0 7 1
timeout 0 > send 0 prepare 2.0 1 to 0 1 2
flush > learn 0 1 7:1; reply 0 7:1 21 2; learn 1 1 7:1; learn 2 1 7:1
submit 0 7 3 > send 0 accept 2.0 2 7:3 to 0 1 2
flush > learn 0 2 7:3; reply 0 7:3 32 3; learn 1 2 7:3; learn 2 2 7:3";

// Two requests are proposed at once. Who leads next proposes the one of which it is told, and a no-op before it.
const TWO_REQUESTS: &str = "\
submit 0 7 1
submit 0 8 1
timeout 0 > send 0 prepare 1.0 0 to 0 1 2
deliver 0 > send 0 promise 1.0 0 65535 to 0
deliver 1 > send 1 promise 1.0 0 65535 to 0
deliver 3
deliver 4 > send 0 accept 1.0 0 7:1 to 0 1 2; send 0 accept 1.0 1 8:1 to 0 1 2
deliver 9 > send 1 accepted 1.0 1 8:1 to 0 1 2
timeout 2 > send 2 prepare 1.2 0 to 0 1 2
deliver 15 > send 1 promise 1.2 0 65535 (1.0 1 8:1) to 2
deliver 16 > send 2 promise 1.2 0 65535 to 2
deliver 17
deliver 18 > send 2 accept 1.2 0 noop to 0 1 2; send 2 accept 1.2 1 8:1 to 0 1 2
deliver 20 > send 1 accepted 1.2 0 noop to 0 1 2
deliver 21 > send 2 accepted 1.2 0 noop to 0 1 2
deliver 23 > send 1 accepted 1.2 1 8:1 to 0 1 2
deliver 24 > send 2 accepted 1.2 1 8:1 to 0 1 2
deliver 27
deliver 30 > learn 2 0 noop
deliver 33
deliver 36 > learn 2 1 8:1
count 2 > answer 2 2 count 0
look 1 > 1 up 0 promise vote 1 promise vote 0 vote 1
deliver 6 > send 1 nack 1.0 1.2 to 0
deliver 37";

// A request waits at two nodes, and is executed once: both reply. It is proposed again where one of them is asked again, and
// not twice.
const AT_TWO_NODES: &str = "\
submit 0 7 1
submit 1 7 1
timeout 0 > send 0 prepare 1.0 0 to 0 1 2
flush > learn 0 0 7:1; reply 0 7:1 21 1; learn 1 0 7:1; reply 1 7:1 21 1; learn 2 0 7:1
restart 1
submit 1 7 1
timeout 1 > send 1 prepare 1.1 0 to 0 1 2
deliver 18 > send 0 promise 1.1 0 65535 (1.0 0 7:1) to 1
flush > learn 1 0 7:1; reply 1 7:1 21 1
count 1 > answer 1 1 count 0
look 1 > 1 up 1 promise vote 0 round promise vote 0";

// how many nodes there are, and their steps
const TABLES: [(u8, &str); 4] = [
    (3, ONE_REQUEST),
    (3, RESTARTED),
    (3, TWO_REQUESTS),
    (3, AT_TWO_NODES),
];

#[test]
fn whole_runs(rt: HostRuntime) -> Result<(), Fail> {
    tables_hold(&rt, rt.alloc(), TABLES.as_slice())
}
