//! What is kept of a vote.

use synod::Ballot;
use wire::SharedCommand;

/// What was voted for at a slot. The command lies where those have it who told of it.
#[derive(Drop)]
pub(super) struct AcceptedValue {
    pub(super) ballot: Ballot,
    pub(super) command: SharedCommand,
}
