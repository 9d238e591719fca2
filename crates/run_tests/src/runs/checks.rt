//! Whole checks of documents: what goes in, and all that comes out. Further ones are the examples.

use crate::runs::streams::{Unwritable, tells_a_device};
use std::io::{self, Error, ErrorKind, Read};
use std::test::Fail;

/// A reader that gives the beginning of a document, and then fails.
#[derive(Drop)]
struct Broken {
    begun: bool,
}

impl Read for Broken {
    fn read(&mut self, buf: &mut [u8]) -> io::Result<usize> {
        if self.begun || buf.is_empty() {
            return Err(Error::from(ErrorKind::BrokenPipe));
        }
        self.begun = true;
        buf[0] = b'{';
        Ok(1)
    }
}

// in the canonical order, with no blanks: 195 bytes, and a line feed
pub(crate) const LINE: &str = concat!(
    r#"{"id":"bus-7","temporalGeometry":{"coordinates":[[0,0],[10,5]],"#,
    r#""datetimes":["2020-01-01T00:00:00.000Z","2020-01-01T00:00:03.000Z"],"#,
    r#""interpolation":"Linear","type":"MovingPoint"},"type":"Feature"}"#,
    "\n"
);

#[test]
fn checks_whose_streams_fail(rt: HostRuntime) -> Result<(), Fail> {
    let words = ["check", "-"];
    // what came before the failure isn't told as a fault of the document
    let input = Broken { begun: false };
    assert!(rt; tells_a_device(&rt, &words, input, Vec::new(rt.alloc()))?);
    assert!(rt; tells_a_device(&rt, &words, LINE.as_bytes(), Unwritable)?);
    // room for all but the line feed
    let mut room = [0u8; 195];
    assert!(rt; tells_a_device(&rt, &words, LINE.as_bytes(), room.as_mut_slice())?);
    Ok(())
}
