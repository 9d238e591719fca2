//! What holds of all lines of clients. Nothing runs.

ghost use Rattle.clients.specs.Laws.{FaultyAskForNothing, LinesAskForOne};

/// No line asks for two things.
pub fn lines_ask_for_one()
    ensures { LinesAskForOne }
{}

/// No line has a fault and asks for something.
pub fn faulty_ask_for_nothing()
    ensures { FaultyAskForNothing }
{}
