//! Lists of flags.

ghost use Rattle.std.specs.Prelude.{◌≡◌, ◌≤◌, ◌<◌, length, slice_get, Some, true};
ghost use Rattle.world_model.specs.Waiting.{NoneWaitsBelow};

/// The first place from `from` on whose flag is set, where none below `from` is; the length where none is set.
pub(crate) fn first_set(flags: &[bool], from: usize) -> usize
    requires none_below { NoneWaitsBelow flags.now from }
    requires within { from ≤ length flags.now }
    ensures set { result < length flags.now → slice_get flags.now result ≡ Some true }
    ensures first { NoneWaitsBelow flags.now result }
    ensures within { result ≤ length flags.now }
{
    let mut index = from;
    while index < flags.len() && !flags[index] {
        index += 1;
    }
    index
}
