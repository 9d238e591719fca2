//! Replies.

ghost use Rattle.std.specs.Prelude.{◌≡◌};
ghost use Rattle.store.specs.Replies.{reply_code};

/// What an operation is answered. Any reply but `Done` leaves the database as it was.
#[derive(Clone, Copy, Debug, PartialEq, Eq)]
pub enum Reply {
    Done,
    /// Append or Remove: there is no feature with this id.
    Unknown,
    /// Append: the point is not later than the feature's last one.
    NotLater,
    /// Append: the feature has `MOST_POINTS` points.
    Full,
    /// Put: the id is unknown, and there are `MOST_FEATURES` features.
    TooMany,
}

impl Reply {
    /// The number under which it is told.
    pub fn code(self) -> u8
        ensures { result ≡ reply_code self }
    {
        match self {
            Reply::Done => 0,
            Reply::Unknown => 21,
            Reply::NotLater => 22,
            Reply::Full => 23,
            Reply::TooMany => 24,
        }
    }
}
