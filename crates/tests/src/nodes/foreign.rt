//! Envelopes that don't concern a node, which it ignores.

use super::tables_hold;
use std::test::Fail;

// Node 0 of three gathers under ballot 2.0, with its own promise alone. It hears nothing that is addressed to another node, nothing of
// node 3, and nothing in which a ballot names node 5. Then it goes on as if these had not come.
const OF_ANOTHER_RUN: &str = "\
hear 0 1, decided 0 7:1 > learn 0 0 7:1; send 0 ask 1 to 1
submit 0 8 1
timeout 0 > send 0 prepare 1.0 1 to 0 1 2
timeout 0 > send 0 prepare 2.0 1 to 0 1 2
deliver 4 > send 0 promise 2.0 1 65535 to 0
deliver 7
look 0 > 0 up 1 round round promise
overhear 0 1, prepare 9.1 1
overhear 0 1, promise 2.0 1 65535
overhear 0 1, nack 2.0 9.1
overhear 0 1, accept 9.1 1 9:1
overhear 0 1, ask 0
overhear 0 1, decided 1 9:1
hear 0 3, prepare 9.1 1
hear 0 3, promise 2.0 1 65535
hear 0 3, nack 2.0 9.1
hear 0 3, accept 9.1 1 9:1
hear 0 3, ask 0
hear 0 3, decided 1 9:1
hear 0 1, prepare 9.5 1
hear 0 1, promise 2.5 1 65535
hear 0 1, promise 2.0 1 65535 (1.5 1 9:1)
hear 0 1, promise 2.0 1 65535 (1.1 1 9:1) (1.3 2 9:1)
hear 0 1, nack 2.0 9.5
hear 0 1, nack 1.5 9.1
hear 0 1, accept 9.5 1 9:1
hear 0 1, accepted 9.5 1 9:1
hear 0 2, accepted 9.5 1 9:1
look 0 > 0 up 1 round round promise
tick 0 > send 0 prepare 2.0 1 to 1 2; send 0 ask 1 to 1 2
hear 0 1, promise 2.0 1 65535 (1.1 1 6:1) > send 0 accept 2.0 1 6:1 to 0 1 2; send 0 accept 2.0 2 8:1 to 0 1 2
hear 0 1, nack 2.0 3.1
timeout 0 > send 0 prepare 4.0 1 to 0 1 2
flush > learn 0 1 6:1; learn 1 1 6:1; learn 2 1 6:1; learn 0 2 8:1; reply 0 8:1 21 3; learn 1 2 8:1; learn 2 2 8:1
look 0 > 0 up 3 round round promise round vote 1 vote 2 promise";

// In a run of seven the same names are heard.
const OF_SEVEN: &str = "\
hear 0 1, prepare 9.5 1 > send 0 promise 9.5 1 65535 to 1
hear 0 3, prepare 9.6 1 > send 0 promise 9.6 1 65535 to 3
hear 0 6, decided 0 7:1 > learn 0 0 7:1; send 0 ask 1 to 6
look 0 > 0 up 1 promise promise";

// how many nodes there are, and their steps
const TABLES: [(u8, &str); 2] = [(3, OF_ANOTHER_RUN), (7, OF_SEVEN)];

#[test]
fn envelopes_of_another_run_are_ignored(rt: HostRuntime) -> Result<(), Fail> {
    tables_hold(&rt, rt.alloc(), TABLES.as_slice())
}
