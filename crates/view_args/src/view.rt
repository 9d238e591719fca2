//! What can be asked for.

/// What is to be seen, and of which file. A FILE of `-` is standard input, and an output of `-` standard output. Of the longer ones it is
/// told on standard error how far they are, where `progress` says so.
#[derive(Debug, Drop)]
pub enum View<'a> {
    /// What is wrong with a schedule or a document.
    Why {
        file: &'a str,
    },
    /// What came of each line of a schedule.
    Run {
        file: &'a str,
        /// Whether each frame is told.
        frames: bool,
        /// Whether it is told as JSON.
        json: bool,
        progress: bool,
    },
    /// The frames of a schedule's run between its nodes, as a picture.
    Draw {
        file: &'a str,
        output: &'a str,
        /// The number of the first frame, where it is named.
        from: Option<&'a str>,
        /// The number of the last frame, where it is named.
        to: Option<&'a str>,
        progress: bool,
    },
    /// The fleet that a schedule's run leaves at a node, on a map.
    Map {
        file: &'a str,
        output: &'a str,
        /// The datetime of the instant, where it is named.
        at: Option<&'a str>,
        /// The number of the node, where it is named.
        node: Option<&'a str>,
        progress: bool,
    },
    /// Whether one list of commands explains what transcripts tell of runs of a schedule.
    Audit {
        schedule: &'a str,
        transcripts: Vec<&'a str>,
        progress: bool,
    },
}
