//! Where in a line of a schedule its fault is, and what was wanted there.

use crate::document_place::document_place;
use crate::place::Place;
use crate::row::{Form, Row, is_of_form, row_of, wanted_of};
use crate::word::{Word, words_of};
use mfjson::MfFault;
use schedule::ScheduleFault;
use schedule::forms::{period_begin, period_end};
use std::alloc::{AllocError, Global};
use tpoint::Period;
use wire::Nodes;

/// Where the line has the fault, in a run of so many nodes.
pub(crate) fn line_place(
    alloc: Global,
    nodes: Nodes,
    text: &[u8],
    fault: ScheduleFault,
) -> Result<Place, AllocError> {
    let words = words_of(alloc, text)?;
    match fault {
        ScheduleFault::NotPrintable => byte_place(alloc, text),
        ScheduleFault::UnknownWord => unknown_place(alloc, &words),
        ScheduleFault::NodesLine => place_at(
            alloc,
            0,
            "the first line that isn't empty is exactly `nodes 3`, `nodes 5` or `nodes 7`, and no later one begins with `nodes`",
        ),
        ScheduleFault::WordCount => count_place(alloc, text, &words),
        ScheduleFault::WordForm => form_place(alloc, nodes, &words),
        ScheduleFault::Document => put_place(alloc, text, &words),
    }
}

/// This place, where this was wanted.
fn place_at(alloc: Global, at: usize, wanted: &str) -> Result<Place, AllocError> {
    let wanted = String::from_str(alloc, wanted)?;
    Ok(Place { at, wanted })
}

/// The first byte that doesn't print.
fn byte_place(alloc: Global, text: &[u8]) -> Result<Place, AllocError> {
    for (at, byte) in text.iter().enumerate() {
        if *byte == b'\r' {
            return place_at(
                alloc,
                at,
                "a carriage return: a line feed alone ends a line",
            );
        }
        if *byte < 0x20 || 0x7E < *byte {
            let wanted = format!(in alloc;
                "byte {byte:02X} (hexadecimal): a line has bytes 20 to 7E alone"
            )?;
            return Ok(Place { at, wanted });
        }
    }
    place_at(alloc, 0, "a line has bytes 20 to 7E alone")
}

/// The word that says what the line is, and is none of the table.
fn unknown_place(alloc: Global, words: &[Word<'_>]) -> Result<Place, AllocError> {
    let first = match words.first() {
        Some(word) => word.text,
        None => b"".as_slice(),
    };
    match first {
        b"submit" => place_at(
            alloc,
            start_of(words, 4),
            "one of `put`, `append` and `remove` is wanted",
        ),
        b"query" => place_at(
            alloc,
            start_of(words, 2),
            "one of `at`, `cut`, `ever`, `always`, `within`, `get` and `count` is wanted",
        ),
        _ => place_at(
            alloc,
            0,
            "a line begins with one of `submit`, `query`, `timeout`, `tick`, `flush`, `deliver`, `drop`, `round`, `fault`, `restart`, \
             `checkpoint` and `trim`",
        ),
    }
}

/// Where a word starts, or 0 where it isn't there.
fn start_of(words: &[Word<'_>], index: usize) -> usize {
    match words.get(index) {
        Some(word) => word.at,
        None => 0,
    }
}

/// The first word too many, or the end of a line that has too few.
fn count_place(alloc: Global, text: &[u8], words: &[Word<'_>]) -> Result<Place, AllocError> {
    let Some(row) = row_of(words) else {
        return place_at(
            alloc,
            text.len(),
            "more words are wanted: `submit NODE CLIENT NUMBER` and what is asked for, or `query NODE` and a question",
        );
    };
    let at = match words.get(row.forms.len()) {
        Some(word) => word.at,
        None => text.len(),
    };
    let wanted = format!(in alloc; "the line is `{}`", row.usage)?;
    Ok(Place { at, wanted })
}

/// The first word that isn't of its form; else the words that are none together.
fn form_place(alloc: Global, nodes: Nodes, words: &[Word<'_>]) -> Result<Place, AllocError> {
    let Some(row) = row_of(words) else {
        return place_at(alloc, 0, "a line of the table is wanted");
    };
    for (index, word) in words.iter().enumerate() {
        let form = form_at(&row, index);
        if !is_of_form(nodes, form, word.text) {
            let wanted = wanted_of(alloc, nodes, form)?;
            return Ok(Place {
                at: word.at,
                wanted,
            });
        }
    }
    pair_place(alloc, &row, words)
}

/// What the word of this index has to be.
fn form_at(row: &Row, index: usize) -> Form {
    match row.forms.get(index) {
        Some(form) => *form,
        None => match row.forms.last() {
            Some(form) => *form,
            None => Form::Known,
        },
    }
}

/// A period without an instant, or a reversed rectangle.
fn pair_place(alloc: Global, row: &Row, words: &[Word<'_>]) -> Result<Place, AllocError> {
    let begin = first_of(row, Form::Begin);
    if !is_period(words, begin) {
        return place_at(
            alloc,
            start_of(words, begin),
            "the period has no instant: it ends before it begins, or at once with that instant left out",
        );
    }
    place_at(
        alloc,
        start_of(words, first_of(row, Form::Coordinate)),
        "the rectangle is reversed: X0 is at most X1, and Y0 at most Y1",
    )
}

/// The index of the row's first word of the form; that behind its last where it has none.
fn first_of(row: &Row, form: Form) -> usize {
    match row.forms.iter().position(|found| *found == form) {
        Some(index) => index,
        None => row.forms.len(),
    }
}

/// Whether the words from this index on are a period's, or aren't there.
fn is_period(words: &[Word<'_>], index: usize) -> bool {
    let Some([first, second, ..]) = words.get(index..) else {
        return true;
    };
    let Some((begin, begin_in)) = period_begin(first.text) else {
        return true;
    };
    let Some((end, end_in)) = period_end(second.text) else {
        return true;
    };
    Period::with(begin, end, begin_in, end_in).is_some()
}

/// The fault of the document that is to be put.
fn put_place(alloc: Global, text: &[u8], words: &[Word<'_>]) -> Result<Place, AllocError> {
    let start = start_of(words, 5);
    let document = match text.get(start..) {
        Some(document) => document,
        None => text,
    };
    match mfjson::read(alloc, document) {
        Ok(_) => place_at(alloc, start, "a document is wanted"),
        Err(MfFault::Memory) => Err(AllocError),
        Err(fault) => {
            let place = document_place(alloc, document, fault)?;
            let code = fault.code();
            let wanted = format!(in alloc;
                "document fault {code}: {fault}; {}",
                place.wanted.as_str()
            )?;
            Ok(Place {
                at: start.saturating_add(place.at),
                wanted,
            })
        }
    }
}
