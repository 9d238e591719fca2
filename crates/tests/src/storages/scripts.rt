//! Storages in memory, and ones whose puts are listed.

use super::calls::{fill, is_filled, is_trimmed, keeps_records, trims_records};
use stable::{Failing, MemStable, Scripted, Stable, StableFault};
use std::alloc::Global;

#[test]
fn memory_keeps_records(rt: HostRuntime) {
    let alloc = rt.alloc();
    let mut memory = MemStable::new(alloc);
    assert_eq!(rt; keeps_records(alloc, &mut memory), Ok(true));
}

#[test]
fn scripted_storages_keep_records(rt: HostRuntime) {
    let alloc = rt.alloc();
    let mut scripted = Scripted::new(alloc, MemStable::new(alloc));
    assert_eq!(rt; keeps_records(alloc, &mut scripted), Ok(true));
    assert_eq!(rt; scripted.puts().len(), 5);
}

#[test]
fn memory_is_trimmed(rt: HostRuntime) {
    let alloc = rt.alloc();
    let mut memory = MemStable::new(alloc);
    assert_eq!(rt; trims_records(alloc, &mut memory), Ok(true));
}

// A trim is listed nowhere.
#[test]
fn scripted_storages_are_trimmed(rt: HostRuntime) {
    let alloc = rt.alloc();
    let mut scripted = Scripted::new(alloc, MemStable::new(alloc));
    assert_eq!(rt; trims_records(alloc, &mut scripted), Ok(true));
    assert_eq!(rt; scripted.puts().len(), 5);
}

// What a trim answers with a fault armed, and whether nothing or all of it was done, as is asked for.
fn armed_trim(alloc: Global, failing: Failing, done: bool) -> Result<bool, StableFault> {
    let mut scripted = Scripted::new(alloc, MemStable::new(alloc));
    fill(alloc, &mut scripted)?;
    scripted.arm(failing);
    let fails = scripted.trim_below(alloc, 700) == Err(StableFault::Device);
    let holds = if done {
        is_trimmed(alloc, &mut scripted)?
    } else {
        is_filled(alloc, &mut scripted)?
    };
    // The fault is used up.
    scripted.trim_below(alloc, 700)?;
    Ok(fails && holds && is_trimmed(alloc, &mut scripted)? && scripted.puts().len() == 5)
}

#[test]
fn an_armed_trim_fails(rt: HostRuntime) {
    let alloc = rt.alloc();
    assert_eq!(rt; armed_trim(alloc, Failing::Old, false), Ok(true));
    assert_eq!(rt; armed_trim(alloc, Failing::New, true), Ok(true));
}

// A fault that is armed for a reading stays armed in a trim, and comes as the keys are read.
fn trim_before_a_reading(alloc: Global) -> Result<bool, StableFault> {
    let mut scripted = Scripted::new(alloc, MemStable::new(alloc));
    fill(alloc, &mut scripted)?;
    scripted.arm(Failing::Read);
    scripted.trim_below(alloc, 700)?;
    let read = scripted.keys(alloc).is_err();
    Ok(read && is_trimmed(alloc, &mut scripted)?)
}

#[test]
fn a_trim_leaves_an_armed_reading(rt: HostRuntime) {
    assert_eq!(rt; trim_before_a_reading(rt.alloc()), Ok(true));
}
