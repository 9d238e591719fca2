//! Writers that fail. How runs of the program end, in lines and statuses, is seen in the examples and with streams that fail.

use super::streams::Unwritable;
use commands::{CheckedStream, Failure, device_failure};
use std::io::{Error, ErrorKind};
use std::test::Fail;

#[test]
fn what_was_printed(rt: HostRuntime) -> Result<(), Fail> {
    let mut out = CheckedStream::new(Vec::new(rt.alloc()));
    out.print(b"learn ")?;
    out.print(b"0\n")?;
    assert_eq!(rt; out.into_inner().as_slice(), b"learn 0\n".as_slice());
    // The writer's own error is handed on, of which no contract speaks.
    let refused = CheckedStream::new(Unwritable).print(b"learn ").err();
    let kind = refused.ok_or("an error")?.kind();
    assert_eq!(rt; kind, ErrorKind::BrokenPipe);
    let kind = Error::from(ErrorKind::OutOfMemory);
    assert_eq!(rt; device_failure(&kind), Failure::Memory);
    Ok(())
}
