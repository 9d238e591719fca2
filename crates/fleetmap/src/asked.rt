//! What a run was asked of rectangles.

use store::Query;
use tpoint::{Id, Period, Rect};

/// A query of a schedule, and what came of it.
#[derive(Drop)]
pub struct Asked {
    /// At which line of the schedule it stands, counted from 1.
    pub line: u64,
    /// Which node was asked.
    pub node: u8,
    pub query: Query,
    /// The text of the answer; None where the node refused.
    pub answer: Option<Vec<u8>>,
}

impl Asked {
    /// The rectangle of the query, if it has one.
    pub(crate) fn area(&self) -> Option<Rect> {
        match self.query {
            Query::Ever(_, _, area) | Query::Always(_, _, area) | Query::Within(_, area) => Some(
                area,
            ),
            Query::At(..) | Query::Cut(..) | Query::Get(_) | Query::Count => None,
        }
    }

    /// The period of the query, if it has a rectangle.
    pub(crate) fn period(&self) -> Option<Period> {
        match self.query {
            Query::Ever(_, period, _) | Query::Always(_, period, _) | Query::Within(period, _) =>
                Some(period),
            Query::At(..) | Query::Cut(..) | Query::Get(_) | Query::Count => None,
        }
    }

    /// The feature of the query, if it has one and a rectangle.
    pub(crate) fn feature(&self) -> Option<&Id> {
        match &self.query {
            Query::Ever(id, _, _) | Query::Always(id, _, _) => Some(id),
            Query::Within(..) | Query::At(..) | Query::Cut(..) | Query::Get(_) | Query::Count =>
                None,
        }
    }

    /// The class that colours it: by a yes, a no, or any other answer.
    pub(crate) fn class(&self) -> &'static [u8] {
        let Some(answer) = &self.answer else {
            return b"other";
        };
        if answer.ends_with(b" yes") {
            b"yes"
        } else if answer.ends_with(b" no") {
            b"no"
        } else {
            b"other"
        }
    }
}
