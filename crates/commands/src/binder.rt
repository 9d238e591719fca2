//! What binds a transport for a loopback.

ghost use Rattle.std.specs.Prelude.{◌≡◌, ◌⊎◌, ⊤, ℕ, IfErr, IfOk};
ghost use Rattle.commands.specs.declared.failure.Failure.{Failure};

use crate::Failure;
use cluster::Transport;
use wire::Nodes;

/// What binds the transport through which a loopback's frames go, once its schedule has said how many nodes there are.
///
/// Whoever runs the program hands one in, as it does an `Archive`: so nothing here stands on sockets.
pub trait Binder {
    /// What it binds.
    type Bound: Transport + Drop;

    /// What may be bound for so many nodes. A binder of which nothing is known leaves that out.
    ghost binds: { ℕ → Self.Bound → Type 0 } = { λ _ _. ⊤ };

    /// The transport of so many nodes.
    fn bind(&self, rt: &HostRuntime, count: Nodes) -> Result<Self::Bound, Failure>
        ensures bound { IfOk result (λ transport. binds count transport) }
        ensures err { IfErr result (λ failure. (failure ≡ Failure.Device) ⊎ (failure ≡ Failure.Memory)) };
}
