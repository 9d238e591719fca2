//! What a run comes to.

use stable::Stable;
use world::World;

/// What a run came to: its transcript, and the world in which it ended.
///
/// Dropping the world gives back each frame and each record that it holds, one by one, which takes a good part of the time
/// that the run took. Who ends right afterwards can leave that to the system.
#[derive(Drop)]
pub struct Replayed<S: Stable> {
    /// The transcript of all that happened in the world.
    pub text: Vec<u8>,
    /// The world as the last line left it.
    pub world: World<S>,
}
