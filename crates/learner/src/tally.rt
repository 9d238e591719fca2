//! Who told of one command under one ballot.

use synod::Ballot;
use wire::{NodeSet, SharedCommand};

/// The nodes that told of votes for a command under a ballot. The command stands here once, however many they are.
#[derive(Drop)]
pub(super) struct Tally {
    pub(super) ballot: Ballot,
    pub(super) command: SharedCommand,
    pub(super) voters: NodeSet,
}
