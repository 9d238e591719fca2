//! Runs over the files of a folder, with checkpoints and trims.

use super::folders::make_folder;
use crate::runs::streams::ends_so;
use std::fs;
use std::test::Fail;

const FOLDER: &str = "checkpoints_test";

const RESTORED_FOLDER: &str = "restored_test";

// Node 0 starts anew from its checkpoint, as no vote is left there. Node 1 starts anew without one: it is behind node 0, and
// catches up with node 2.
const SCHEDULE: &[u8] = b"\
nodes 3
submit 0 7 1 remove bus-7
timeout 0
flush
checkpoint 0
trim 0
restart 0
query 0 count
checkpoint 0
restart 1
round 1 0 1
round 1 1 2
";

const LINES: &str = "\
learn 0 0 7:1
reply 0 7:1 21
learn 1 0 7:1
learn 2 0 7:1
answer 0 1 count 0
refuse 0 49
round 1 behind 0
learn 1 0 7:1
round 1 decided 0
";

#[test]
fn files_begin_with_a_checkpoint(rt: HostRuntime) -> Result<(), Fail> {
    make_folder(&rt, FOLDER)?;
    let words = ["replay", "--db", FOLDER, "-"];
    assert!(rt; ends_so(&rt, &words, SCHEDULE, (0, LINES, ""))?);
    fs::remove_dir_all(&rt, FOLDER)?;
    Ok(())
}

// Node 2 missed what node 0 has forgotten, and is restored from a part. That is in no file: a restart begins anew.
const RESTORED: &[u8] = b"\
nodes 3
submit 0 7 1 remove bus-7
round 0 0 1
checkpoint 0
trim 0
restart 0
tick 2
deliver 14
deliver 16
deliver 17
deliver 19
query 2 count
restart 2
query 2 count
deliver 19
tick 2
deliver 21
deliver 23
deliver 24
deliver 26
query 2 count
";

const RESTORED_LINES: &str = "\
learn 0 0 7:1
reply 0 7:1 21
round 0 decided 0
restore 2 1
answer 2 1 count 0
answer 2 0 count 0
restore 2 1
answer 2 1 count 0
";

#[test]
fn a_node_is_restored_over_files(rt: HostRuntime) -> Result<(), Fail> {
    make_folder(&rt, RESTORED_FOLDER)?;
    let words = ["replay", "--db", RESTORED_FOLDER, "-"];
    assert!(rt; ends_so(&rt, &words, RESTORED, (0, RESTORED_LINES, ""))?);
    fs::remove_dir_all(&rt, RESTORED_FOLDER)?;
    Ok(())
}
