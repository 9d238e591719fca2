//! How far a view is, told on standard error.

use replay::Watch;

/// Of a run every so many lines are told.
const LINES_AT_ONCE: usize = 10_000;

/// Whether it is told how far a view is.
#[derive(Clone, Copy)]
pub(crate) struct Progress {
    pub is_told: bool,
}

/// Nothing is told.
pub(crate) const UNTOLD: Progress = Progress { is_told: false };

impl Progress {
    /// A file of so many bytes was read.
    pub fn tell_read(self, rt: &HostRuntime, file: &str, bytes: &[u8]) {
        if self.is_told {
            let lines = count_lines(bytes);
            let _ = eprintln!(rt; "mfpxview: read {lines} lines of {file}");
        }
    }

    /// Who is told how far a run is.
    pub fn watch(self, rt: &HostRuntime) -> Watched<'_> {
        Watched {
            rt,
            progress: self,
            done: 0,
        }
    }

    /// So many lines of a run are done, the last of them this one, and it has so many frames.
    fn tell_lines(self, rt: &HostRuntime, done: usize, line: u64, frames: usize) {
        if self.is_told && done % LINES_AT_ONCE == 0 {
            let _ = eprintln!(rt; "mfpxview: did line {line}, with {frames} frames so far");
        }
    }

    /// What was asked for is done, and so many bytes tell it.
    pub fn tell_done(self, rt: &HostRuntime, size: usize) {
        if self.is_told {
            let _ = eprintln!(rt; "mfpxview: done, with {size} bytes to write");
        }
    }

    /// So many of these bytes are written.
    pub fn tell_written(self, rt: &HostRuntime, written: usize, size: usize) {
        if self.is_told {
            let _ = eprintln!(rt; "mfpxview: wrote {written} of {size} bytes");
        }
    }
}

/// Tells how far a run is.
#[derive(Drop)]
pub(crate) struct Watched<'a> {
    rt: &'a HostRuntime,
    progress: Progress,
    /// So many lines are done.
    done: usize,
}

impl Watch for Watched<'_> {
    fn line_done(&mut self, line: u64, frames: usize) {
        self.done = self.done.saturating_add(1);
        self.progress.tell_lines(self.rt, self.done, line, frames);
    }
}

/// How many lines a text has. The last may lack its end.
fn count_lines(text: &[u8]) -> usize {
    let mut ended = 0usize;
    for byte in text {
        if *byte == b'\n' {
            ended = ended.saturating_add(1);
        }
    }
    match text.last() {
        Some(b'\n') | None => ended,
        Some(_) => ended.saturating_add(1),
    }
}
