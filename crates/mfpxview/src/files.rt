//! Files, of which `-` names the standard streams.

use crate::failure::Failure;
use crate::progress::Progress;
use std::fs;
use std::io::{self, ErrorKind, Read, Write};

/// So many bytes are printed at once.
const PIECE: usize = 65_536;

/// All bytes of the file of this name.
pub(crate) fn read_file(
    rt: &HostRuntime,
    file: &str,
    progress: Progress,
) -> Result<Vec<u8>, Failure> {
    let read = if file == "-" {
        let mut bytes = Vec::new(rt.alloc());
        match rt.stdin().read_to_end(&mut bytes) {
            Ok(_) => Ok(bytes),
            Err(error) => Err(error),
        }
    } else {
        fs::read(rt, file)
    };
    match read {
        Ok(bytes) => {
            progress.tell_read(rt, file, bytes.as_slice());
            Ok(bytes)
        }
        Err(error) => match error.kind() {
            ErrorKind::OutOfMemory => Err(Failure::Memory),
            _ => Err(Failure::Unread),
        },
    }
}

/// Writes the text, all of it, to the file of this name, which is made or made anew.
pub(crate) fn write_file(
    rt: &HostRuntime,
    file: &str,
    text: &[u8],
    progress: Progress,
) -> Result<(), Failure> {
    let written = if file == "-" {
        print_text(rt, text, progress)
    } else {
        save_text(rt, file, text, progress)
    };
    match written {
        Ok(()) => Ok(()),
        Err(_) => Err(Failure::Unwritten),
    }
}

/// Prints the text piece by piece: a reader may be slow.
fn print_text(rt: &HostRuntime, text: &[u8], progress: Progress) -> io::Result<()> {
    let mut out = rt.stdout();
    let mut written = 0usize;
    for piece in text.chunks(PIECE) {
        out.write_all(piece)?;
        out.flush()?;
        written = written.saturating_add(piece.len());
        progress.tell_written(rt, written, text.len());
    }
    Ok(())
}

/// Writes the text to a file, which is made or made anew.
fn save_text(rt: &HostRuntime, file: &str, text: &[u8], progress: Progress) -> io::Result<()> {
    fs::write(rt, file, text)?;
    progress.tell_written(rt, text.len(), text.len());
    Ok(())
}
