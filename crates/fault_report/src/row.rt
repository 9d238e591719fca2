//! The table of lines, for people: what the words of each are called, and what each has to be.

use crate::word::Word;
use schedule::forms::{
    client, coordinate, decimal, failing, id, instant, node, period_begin, period_end,
    request_number,
};
use std::alloc::{AllocError, Global};
use wire::Nodes;

/// What a word has to be.
#[derive(Clone, Copy, PartialEq, Eq)]
pub(crate) enum Form {
    /// A word that is looked at by itself: the first, the one that says which submission or query it is, and those of a document.
    Known,
    Node,
    Client,
    Number,
    Frame,
    Failing,
    Id,
    Datetime,
    Begin,
    End,
    Coordinate,
}

/// A line of the table.
#[derive(Clone, Copy)]
pub(crate) struct Row {
    /// How it is written.
    pub usage: &'static str,
    /// What its words have to be. Those behind the last have to be what the last is.
    pub forms: &'static [Form],
}

/// The word by which a row is found, how the line is written, and what its words have to be.
type NamedRow = (&'static str, &'static str, &'static [Form]);

const DELIVER: &[Form] = &[Form::Known, Form::Frame];

const FLUSH: &[Form] = &[Form::Known];

const TICK: &[Form] = &[Form::Known, Form::Node];

const FAULT: &[Form] = &[Form::Known, Form::Node, Form::Failing];

const ROUND: &[Form] = &[Form::Known, Form::Node, Form::Node];

const PUT: &[Form] = &[
    Form::Known,
    Form::Node,
    Form::Client,
    Form::Number,
    Form::Known,
    Form::Known,
];

const APPEND: &[Form] = &[
    Form::Known,
    Form::Node,
    Form::Client,
    Form::Number,
    Form::Known,
    Form::Id,
    Form::Datetime,
    Form::Coordinate,
    Form::Coordinate,
];

const REMOVE: &[Form] = &[
    Form::Known,
    Form::Node,
    Form::Client,
    Form::Number,
    Form::Known,
    Form::Id,
];

const AT: &[Form] = &[
    Form::Known,
    Form::Node,
    Form::Known,
    Form::Id,
    Form::Datetime,
];

const CUT: &[Form] = &[
    Form::Known,
    Form::Node,
    Form::Known,
    Form::Id,
    Form::Begin,
    Form::End,
];

const EVER: &[Form] = &[
    Form::Known,
    Form::Node,
    Form::Known,
    Form::Id,
    Form::Begin,
    Form::End,
    Form::Coordinate,
    Form::Coordinate,
    Form::Coordinate,
    Form::Coordinate,
];

const WITHIN: &[Form] = &[
    Form::Known,
    Form::Node,
    Form::Known,
    Form::Begin,
    Form::End,
    Form::Coordinate,
    Form::Coordinate,
    Form::Coordinate,
    Form::Coordinate,
];

const GET: &[Form] = &[Form::Known, Form::Node, Form::Known, Form::Id];

const COUNT: &[Form] = &[Form::Known, Form::Node, Form::Known];

/// The lines that are neither submissions nor queries, by their first words.
const PLAIN_ROWS: &[NamedRow] = &[
    ("deliver", "deliver K", DELIVER),
    ("drop", "drop K", DELIVER),
    ("flush", "flush", FLUSH),
    ("timeout", "timeout NODE", TICK),
    ("tick", "tick NODE", TICK),
    ("checkpoint", "checkpoint NODE", TICK),
    ("trim", "trim NODE", TICK),
    ("restart", "restart NODE", TICK),
    ("fault", "fault NODE HOW", FAULT),
    ("round", "round NODE NODE ..", ROUND),
];

/// Submissions, by the word that says of what.
const SUBMIT_ROWS: &[NamedRow] = &[
    ("put", "submit NODE CLIENT NUMBER put JSON", PUT),
    (
        "append",
        "submit NODE CLIENT NUMBER append ID DATETIME X Y",
        APPEND,
    ),
    ("remove", "submit NODE CLIENT NUMBER remove ID", REMOVE),
];

/// Queries, by the word that says for what.
const QUERY_ROWS: &[NamedRow] = &[
    ("at", "query NODE at ID DATETIME", AT),
    ("cut", "query NODE cut ID BEGIN END", CUT),
    ("ever", "query NODE ever ID BEGIN END X0 Y0 X1 Y1", EVER),
    ("always", "query NODE always ID BEGIN END X0 Y0 X1 Y1", EVER),
    ("within", "query NODE within BEGIN END X0 Y0 X1 Y1", WITHIN),
    ("get", "query NODE get ID", GET),
    ("count", "query NODE count", COUNT),
];

/// The row of a line that begins with these words, where there is one.
pub(crate) fn row_of(words: &[Word<'_>]) -> Option<Row> {
    let first = words.first()?.text;
    match first {
        b"submit" => named_row(SUBMIT_ROWS, words.get(4)?.text),
        b"query" => named_row(QUERY_ROWS, words.get(2)?.text),
        other => named_row(PLAIN_ROWS, other),
    }
}

/// The row of this name.
fn named_row(rows: &'static [NamedRow], word: &[u8]) -> Option<Row> {
    let (_, usage, forms) = rows.iter().find(|row| row.0.as_bytes() == word)?;
    Some(Row { usage, forms })
}

/// Whether the word is of the form, in a run of so many nodes.
pub(crate) fn is_of_form(nodes: Nodes, form: Form, word: &[u8]) -> bool {
    match form {
        Form::Known => true,
        Form::Node => node(nodes, word).is_some(),
        Form::Client => client(word).is_some(),
        Form::Number => request_number(word).is_some(),
        Form::Frame => decimal(word).is_some(),
        Form::Failing => failing(word).is_some(),
        Form::Id => id(word).is_some(),
        Form::Datetime => instant(word).is_some(),
        Form::Begin => period_begin(word).is_some(),
        Form::End => period_end(word).is_some(),
        Form::Coordinate => coordinate(word).is_some(),
    }
}

/// What a word of the form is, in words.
pub(crate) fn wanted_of(alloc: Global, nodes: Nodes, form: Form) -> Result<String, AllocError> {
    let text = match form {
        Form::Known => "a word of the table",
        Form::Node => {
            let last = nodes.count().saturating_sub(1);
            return format!(in alloc; "a node of this run is wanted: 0 to {last}");
        }
        Form::Client => "a client is wanted: 0 to 255",
        Form::Number => "a request's number is wanted: from 1, below 2^64",
        Form::Frame => "a frame's number is wanted: from 0, below 2^64",
        Form::Failing => "`old`, `new` or `read` is wanted",
        Form::Id => "an id is wanted: 1 to 64 ASCII letters, digits, `-`, `_`, `.`",
        Form::Datetime => "a datetime is wanted, such as 2020-01-01T00:00:00Z",
        Form::Begin => "a datetime is wanted; `[` or `(` may precede it",
        Form::End => "a datetime is wanted; `]` or `)` may follow it",
        Form::Coordinate => {
            "a coordinate is wanted: whole millimetres, -10000000000 to 10000000000"
        }
    };
    String::from_str(alloc, text)
}
