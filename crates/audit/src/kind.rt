//! The words that say what a line is.

ghost use Rattle.std.specs.Prelude.{◌≡◌, ◌≢◌, MatchOption};
ghost use Rattle.audit.specs.Kinds.{kind_text, end_text};
ghost use Rattle.audit.specs.declared.kind.Kind.{Kind as AKind};
ghost use Rattle.audit.specs.declared.kind.End.{End as AnEnd};

/// The word that a line begins with.
#[derive(Clone, Copy)]
pub(crate) enum Kind {
    Learn,
    Reply,
    Answer,
    Restore,
    Refuse,
    Stop,
    Round,
    Strangers,
}

/// How a manual round ended: the word after `round NODE`.
#[derive(Clone, Copy)]
pub(crate) enum End {
    Decided,
    Low,
    NoQuorum,
    Down,
    Behind,
    Refused,
    Stopped,
}

/// The kind of line that begins with the word.
pub(crate) fn kind_of(word: &[u8]) -> Option<Kind>
    ensures { MatchOption result ((kind : AKind) → word.now ≢ kind_text kind)
        (λ kind. word.now ≡ kind_text kind) }
{
    match word {
        b"learn" => Some(Kind::Learn),
        b"reply" => Some(Kind::Reply),
        b"answer" => Some(Kind::Answer),
        b"restore" => Some(Kind::Restore),
        b"refuse" => Some(Kind::Refuse),
        b"stop" => Some(Kind::Stop),
        b"round" => Some(Kind::Round),
        b"strangers" => Some(Kind::Strangers),
        _ => None,
    }
}

/// The end of a round that the word names.
pub(crate) fn end_of(word: &[u8]) -> Option<End>
    ensures { MatchOption result ((end : AnEnd) → word.now ≢ end_text end)
        (λ end. word.now ≡ end_text end) }
{
    match word {
        b"decided" => Some(End::Decided),
        b"low" => Some(End::Low),
        b"noquorum" => Some(End::NoQuorum),
        b"down" => Some(End::Down),
        b"behind" => Some(End::Behind),
        b"refused" => Some(End::Refused),
        b"stopped" => Some(End::Stopped),
        _ => None,
    }
}
