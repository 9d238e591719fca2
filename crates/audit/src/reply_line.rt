//! Lines `reply`.

ghost use Rattle.std.specs.Prelude.{◌≡◌, ℕ, MatchOption, decimal};
ghost use Rattle.audit.specs.Rows.{IsReply, IsReplyCode};

use crate::codes::is_reply_code;
use crate::numbers::request;
use schedule::Words;
use schedule::forms::below;

/// The reply of a request, as a line tells it.
#[derive(Clone, Copy)]
pub(crate) struct ReplyRow {
    pub client: u8,
    pub number: u64,
    pub code: u8,
}

/// The request and its reply, after `reply`.
pub(crate) fn reply_row(nodes: u8, mut words: Words) -> Option<ReplyRow>
    ensures { MatchOption result ((client number code : ℕ) → ¬ IsReply nodes words.entry client number code)
        (λ reply. IsReply nodes words.entry reply.client reply.number reply.code) }
{
    let node = words.next()?;
    let (named, code) = words.pair().ok()?;
    let _node = below(nodes.into(), node)?;
    let (client, number) = request(named)?;
    let code = reply_code(code)?;
    Some(ReplyRow {
        client,
        number,
        code,
    })
}

/// The code of a reply that the word writes.
fn reply_code(word: &[u8]) -> Option<u8>
    ensures { MatchOption result ((code : ℕ) → word.now ≡ decimal code → ¬ IsReplyCode code)
        (λ code. (word.now ≡ decimal code) × IsReplyCode code) }
{
    let code = below(256, word)?;
    if is_reply_code(code) {
        Some(code as u8)
    } else {
        None
    }
}
