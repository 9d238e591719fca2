//! Where nodes and steps stand.

ghost use Rattle.std.specs.Prelude.{◌≡◌, ◌<◌, ◌^◌};
ghost use Rattle.diagram.specs.Places.{lane, place};

use super::layout::Layout;
use picture::Place;
use wire::NodeId;

/// Where the lane of node 0 stands, and the last one's distance from it, in hundredths of a point. Signs stand right of it.
const FIRST_LANE: u32 = 28_000;

const LANES: u32 = 46_000;

/// Where the lane of a node stands.
#[tactic(auto, unfolding(crate::specs::Places::lane))]
pub(crate) fn lane(nodes: u8, node: u8) -> u32
    ensures there { result ≡ lane nodes node }
    ensures near { result < 2 ^ 24 }
{
    let gaps = u32::from(nodes).saturating_sub(1).max(1);
    FIRST_LANE + u32::from(node) * LANES / gaps
}

/// Where a node stands at a step.
pub(crate) fn place(nodes: u8, node: NodeId, layout: &Layout, step: usize) -> Place
    ensures { result ≡ place nodes layout.now.ends.items node step }
{
    Place {
        x: lane(nodes, node.value()),
        y: layout.place_of(step),
    }
}
