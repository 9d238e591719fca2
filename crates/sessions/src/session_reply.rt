//! What a request is answered.

ghost use Rattle.std.specs.Prelude.{◌≡◌};
ghost use Rattle.sessions.specs.SessionReplies.{outcome_code};

use store::Reply;

/// What a request is answered.
#[derive(Clone, Copy, Debug, PartialEq, Eq)]
pub enum SessionReply {
    /// It is its client's last request that counted: what the database replied to it.
    Applied(Reply),
    /// A later request of its client has counted.
    Past,
    /// The request before it has not counted yet. It may count later.
    Gap,
}

impl SessionReply {
    /// The number under which it is told.
    pub fn code(self) -> u8
        ensures { result ≡ outcome_code self }
    {
        match self {
            SessionReply::Applied(reply) => reply.code(),
            SessionReply::Past => 31,
            SessionReply::Gap => 32,
        }
    }
}
