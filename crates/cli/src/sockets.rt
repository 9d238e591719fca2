//! The sockets of a loopback.

ghost use Rattle.std.specs.Prelude.{◌≡◌, ◌⊎◌, IfErr, IfOk};
ghost use Rattle.cli.specs.Outside.{OneEach};

use commands::{Binder, Failure, device_failure};
use udp_transport::Sockets;
use wire::Nodes;

/// Binds a socket of 127.0.0.1 for each node. One that can't be had is a device that fails.
pub(crate) struct LocalSockets;

impl Binder for LocalSockets {
    type Bound = Sockets;

    ghost binds = { OneEach };

    fn bind(&self, rt: &HostRuntime, count: Nodes) -> Result<Sockets, Failure> {
        match Sockets::bind(rt, rt.alloc(), count) {
            Ok(sockets) => Ok(sockets),
            Err(error) => Err(device_failure(&error)),
        }
    }
}
