//! Maps of the fleet that a run leaves at a node.

use replay::Unwatched;
use run_map::{MapFault, map};
use std::str;
use std::test::Fail;
use tpoint::Instant;

const SCHEDULE: &[u8] = b"\
nodes 3
submit 0 7 1 put {\"type\":\"Feature\",\"id\":\"bus-7\",\"temporalGeometry\":{\"type\":\"MovingPoint\",\
\"datetimes\":[\"2020-01-01T00:00:00Z\",\"2020-01-01T00:00:03Z\"],\"coordinates\":[[0,0],[10,5]],\"interpolation\":\"Linear\"}}
timeout 0
flush
query 1 ever bus-7 2020-01-01T00:00:00Z 2020-01-01T00:00:03Z 5 0 10 5
fault 2 read
restart 2
query 2 within [2020-01-01T00:00:00Z 2020-01-01T00:00:03Z] 5 0 10 5
deliver 9999
";

#[test]
fn draws_what_a_node_has(rt: HostRuntime) -> Result<(), Fail> {
    let alloc = rt.alloc();
    let t = Instant::new(1_577_836_801_000).ok_or("an instant")?;
    let drawn = map(alloc, SCHEDULE, Some(t), 0, &mut Unwatched)
        .ok()
        .ok_or("a map")?;
    let text = str::from_utf8(&drawn.text).unwrap_or("");
    assert!(rt; text.contains("The fleet at 2020-01-01T00:00:01.000Z, as node 0 has it"));
    assert!(rt; text.contains("ended at line 9: no frame of this number was sent."));
    assert!(rt; text.contains("Linear: 10/3, 5/3"));
    assert!(rt; text.contains("line 5, node 1: bus-7 ever yes"));
    assert!(rt; text.contains("line 8, node 2: refused"));
    assert_eq!(rt; drawn.end.map(|fault| fault.line), Some(9));
    Ok(())
}

#[test]
fn tells_why_there_is_no_map(rt: HostRuntime) -> Result<(), Fail> {
    let alloc = rt.alloc();
    let down = map(alloc, SCHEDULE, None, 2, &mut Unwatched).err();
    assert_eq!(rt; down, Some(MapFault::Down(2)));
    let missing = map(alloc, SCHEDULE, None, 3, &mut Unwatched).err();
    assert_eq!(rt; missing, Some(MapFault::NoSuchNode(3)));
    let faulty = map(alloc, b"nodes 4", None, 0, &mut Unwatched).err();
    assert!(rt; matches!(faulty, Some(MapFault::Schedule(_))));
    Ok(())
}
