//! The classes of arrows: how a line looks, in the colour of its frame's ballot.

ghost use Rattle.std.specs.Prelude.{◌≡◌};
ghost use Rattle.diagram.specs.Strokes.{came_class, lost_class, waits_class};

use std::io;
use synod::Ballot;

/// The class of a ballot's colour: eight in turn, in the order in which ballots come.
pub(crate) fn color_of(ballots: &mut Vec<Ballot>, ballot: Option<Ballot>) -> io::Result<usize> {
    let Some(ballot) = ballot else {
        return Ok(8);
    };
    match ballots.iter().position(|known| *known == ballot) {
        Some(index) => Ok(index % 8),
        None => {
            let index = ballots.len();
            ballots.push(ballot)?;
            Ok(index % 8)
        }
    }
}

pub(crate) fn came_class(color: usize) -> &'static [u8]
    ensures { result.now ≡ came_class color }
{
    match color {
        0 => b"came b0",
        1 => b"came b1",
        2 => b"came b2",
        3 => b"came b3",
        4 => b"came b4",
        5 => b"came b5",
        6 => b"came b6",
        7 => b"came b7",
        _ => b"came none",
    }
}

pub(crate) fn lost_class(color: usize) -> &'static [u8]
    ensures { result.now ≡ lost_class color }
{
    match color {
        0 => b"lost b0",
        1 => b"lost b1",
        2 => b"lost b2",
        3 => b"lost b3",
        4 => b"lost b4",
        5 => b"lost b5",
        6 => b"lost b6",
        7 => b"lost b7",
        _ => b"lost none",
    }
}

pub(crate) fn waits_class(color: usize) -> &'static [u8]
    ensures { result.now ≡ waits_class color }
{
    match color {
        0 => b"waits b0",
        1 => b"waits b1",
        2 => b"waits b2",
        3 => b"waits b3",
        4 => b"waits b4",
        5 => b"waits b5",
        6 => b"waits b6",
        7 => b"waits b7",
        _ => b"waits none",
    }
}
