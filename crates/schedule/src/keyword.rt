//! The words that say what a line is.

ghost use Rattle.std.specs.Prelude.{◌≡◌, ◌≢◌, MatchOption};
ghost use Rattle.schedule.specs.Keywords.{text_of, operation_text, question_text};
ghost use Rattle.schedule.specs.declared.keyword.Keyword.{Keyword};
ghost use Rattle.schedule.specs.declared.keyword.Operation.{Operation};
ghost use Rattle.schedule.specs.declared.keyword.Question.{Question};

/// A word that a line begins with and that alone says what the line is.
#[derive(Clone, Copy)]
pub enum Keyword {
    Nodes,
    Deliver,
    Drop,
    Flush,
    Timeout,
    Tick,
    Checkpoint,
    Trim,
    Restart,
    Fault,
    Round,
}

/// The word after `submit NODE CLIENT NUMBER`. It says what a client asks for.
#[derive(Clone, Copy)]
pub enum Operation {
    Put,
    Append,
    Remove,
}

/// The word after `query NODE`. It says what the node is asked.
#[derive(Clone, Copy)]
pub enum Question {
    At,
    Cut,
    Ever,
    Always,
    Within,
    Get,
    Count,
}

/// The keyword that the word is.
pub(crate) fn keyword_of(word: &[u8]) -> Option<Keyword>
    ensures { MatchOption result ((keyword : Keyword) → word.now ≢ text_of keyword)
        (λ keyword. word.now ≡ text_of keyword) }
{
    match word {
        b"nodes" => Some(Keyword::Nodes),
        b"deliver" => Some(Keyword::Deliver),
        b"drop" => Some(Keyword::Drop),
        b"flush" => Some(Keyword::Flush),
        b"timeout" => Some(Keyword::Timeout),
        b"tick" => Some(Keyword::Tick),
        b"checkpoint" => Some(Keyword::Checkpoint),
        b"trim" => Some(Keyword::Trim),
        b"restart" => Some(Keyword::Restart),
        b"fault" => Some(Keyword::Fault),
        b"round" => Some(Keyword::Round),
        _ => None,
    }
}

/// The operation that the word is.
pub(crate) fn operation_of(word: &[u8]) -> Option<Operation>
    ensures { MatchOption result ((operation : Operation) → word.now ≢ operation_text operation)
        (λ operation. word.now ≡ operation_text operation) }
{
    match word {
        b"put" => Some(Operation::Put),
        b"append" => Some(Operation::Append),
        b"remove" => Some(Operation::Remove),
        _ => None,
    }
}

/// The question that the word is.
pub(crate) fn question_of(word: &[u8]) -> Option<Question>
    ensures { MatchOption result ((question : Question) → word.now ≢ question_text question)
        (λ question. word.now ≡ question_text question) }
{
    match word {
        b"at" => Some(Question::At),
        b"cut" => Some(Question::Cut),
        b"ever" => Some(Question::Ever),
        b"always" => Some(Question::Always),
        b"within" => Some(Question::Within),
        b"get" => Some(Question::Get),
        b"count" => Some(Question::Count),
        _ => None,
    }
}
