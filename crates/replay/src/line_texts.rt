//! The lines of a transcript as texts, each written from its end to its front, so that it is moved once.
//!
//! Each call returns where the line starts, or the piece of it.

ghost use Rattle.std.specs.Prelude.{◌≡◌, ◌++◌, ◌+◌, ◌≤◌, codes, decimal, length, drop};
ghost use Rattle.replay.specs.Transcripts.{end_text, request_text};
ghost use Rattle.replay.specs.declared.line_texts.TheConstants.{LONGEST_ASKED, LONGEST_END, LONGEST_LINE, LONGEST_WORD, SHORT_ANSWER};

use itoa::write_digits;
use textbuf::{LONGEST_WHOLE, write_byte, write_text};
use world_model::RoundEnd;

/// A line has at most this many bytes, but for that of a long answer.
pub(crate) const LONGEST_LINE: usize = 96;

/// What stands before an answer has at most this many bytes.
const LONGEST_ASKED: usize = 49;

/// An answer of at most this many bytes is moved with the rest of its line.
pub(crate) const SHORT_ANSWER: usize = 46;

/// How a round by hand ended has at most this many bytes.
const LONGEST_END: usize = 60;

/// A word before a number has at most this many bytes, with its blank.
const LONGEST_WORD: usize = 10;

/// Writes what a node learnt: `learn 0 0 7:1`.
pub(crate) fn write_learn(node: u8, slot: u32, client: u8, number: u64, line: &mut [u8]) -> usize
    requires { length line.old ≡ LONGEST_LINE }
    ensures in_line { result ≤ LONGEST_LINE }
    ensures written { drop result line.new ≡ codes "learn " ++ decimal node ++ codes " " ++ decimal slot
        ++ codes " " ++ request_text client number ++ codes "\n" }
{
    let start = write_byte(b'\n', line, LONGEST_LINE);
    let start = write_number(number, line, start);
    let start = write_byte(b':', line, start);
    let start = write_number(u64::from(client), line, start);
    let start = write_byte(b' ', line, start);
    let start = write_number(u64::from(slot), line, start);
    let start = write_byte(b' ', line, start);
    let start = write_number(u64::from(node), line, start);
    write_text(b"learn ", line, start)
}

/// Writes that a node learnt a no-op: `learn 0 0 noop`.
pub(crate) fn write_noop(node: u8, slot: u32, line: &mut [u8]) -> usize
    requires { length line.old ≡ LONGEST_LINE }
    ensures in_line { result ≤ LONGEST_LINE }
    ensures written { drop result line.new ≡ codes "learn " ++ decimal node ++ codes " " ++ decimal slot
        ++ codes " " ++ codes "noop" ++ codes "\n" }
{
    let start = write_text(b" noop\n", line, LONGEST_LINE);
    let start = write_number(u64::from(slot), line, start);
    let start = write_byte(b' ', line, start);
    let start = write_number(u64::from(node), line, start);
    write_text(b"learn ", line, start)
}

/// Writes a reply: `reply 0 7:1 21`.
pub(crate) fn write_reply(node: u8, client: u8, number: u64, code: u8, line: &mut [u8]) -> usize
    requires { length line.old ≡ LONGEST_LINE }
    ensures in_line { result ≤ LONGEST_LINE }
    ensures written { drop result line.new ≡ codes "reply " ++ decimal node ++ codes " "
        ++ request_text client number ++ codes " " ++ decimal code ++ codes "\n" }
{
    let start = write_byte(b'\n', line, LONGEST_LINE);
    let start = write_number(u64::from(code), line, start);
    let start = write_byte(b' ', line, start);
    let start = write_number(number, line, start);
    let start = write_byte(b':', line, start);
    let start = write_number(u64::from(client), line, start);
    let start = write_byte(b' ', line, start);
    let start = write_number(u64::from(node), line, start);
    write_text(b"reply ", line, start)
}

/// Writes a short answer: `answer 0 1 count 0`.
pub(crate) fn write_answer(node: u8, position: u32, answer: &[u8], line: &mut [u8]) -> usize
    requires whole { length line.old ≡ LONGEST_LINE }
    requires short { length answer.now ≤ SHORT_ANSWER }
    ensures in_line { result ≤ LONGEST_LINE }
    ensures written { drop result line.new ≡ codes "answer " ++ decimal node ++ codes " " ++ decimal position
        ++ codes " " ++ answer.now ++ codes "\n" }
{
    let start = write_byte(b'\n', line, LONGEST_LINE);
    let start = write_text(answer, line, start);
    write_asked(node, position, line, start)
}

/// Writes what stands before a long answer: `answer 0 1 `.
pub(crate) fn write_question(node: u8, position: u32, line: &mut [u8]) -> usize
    requires { length line.old ≡ LONGEST_LINE }
    ensures in_line { result ≤ LONGEST_LINE }
    ensures written { drop result line.new ≡ codes "answer " ++ decimal node ++ codes " " ++ decimal position ++ codes " " }
{
    write_asked(node, position, line, LONGEST_LINE)
}

/// Writes what stands before an answer: which node was asked, and where in the order.
fn write_asked(node: u8, position: u32, line: &mut [u8], end: usize) -> usize
    requires room { LONGEST_ASKED ≤ end }
    requires in_line { end ≤ length line.old }
    ensures start { result ≤ end }
    ensures written { drop result line.new ≡ (codes "answer " ++ decimal node ++ codes " " ++ decimal position
        ++ codes " ") ++ drop end line.old }
{
    let start = write_byte(b' ', line, end);
    let start = write_number(u64::from(position), line, start);
    let start = write_byte(b' ', line, start);
    let start = write_number(u64::from(node), line, start);
    write_text(b"answer ", line, start)
}

/// Writes what came to a node, as one word says, and a number: `restore 2 1`.
pub(crate) fn write_event(word: &[u8], node: u8, number: u64, line: &mut [u8]) -> usize
    requires whole { length line.old ≡ LONGEST_LINE }
    requires short { length word.now ≤ LONGEST_WORD }
    ensures in_line { result ≤ LONGEST_LINE }
    ensures written { drop result line.new ≡ word.now ++ decimal node ++ codes " " ++ decimal number ++ codes "\n" }
{
    let start = write_byte(b'\n', line, LONGEST_LINE);
    let start = write_number(number, line, start);
    let start = write_byte(b' ', line, start);
    let start = write_number(u64::from(node), line, start);
    write_text(word, line, start)
}

/// Writes how a round by hand ended: `round 0 decided 0`.
pub(crate) fn write_round(node: u8, end: RoundEnd, line: &mut [u8]) -> usize
    requires { length line.old ≡ LONGEST_LINE }
    ensures in_line { result ≤ LONGEST_LINE }
    ensures written { drop result line.new ≡ codes "round " ++ decimal node ++ codes " " ++ end_text end ++ codes "\n" }
{
    let start = write_byte(b'\n', line, LONGEST_LINE);
    let start = write_end(end, line, start);
    let start = write_byte(b' ', line, start);
    let start = write_number(u64::from(node), line, start);
    write_text(b"round ", line, start)
}

/// Writes how a round ended, after its node.
fn write_end(end: RoundEnd, line: &mut [u8], from: usize) -> usize
    requires room { LONGEST_END ≤ from }
    requires in_line { from ≤ length line.old }
    ensures start { result ≤ from }
    ensures short { from ≤ result + LONGEST_END }
    ensures written { drop result line.new ≡ end_text end ++ drop from line.old }
{
    match end {
        RoundEnd::NotAQuorum => write_text(b"noquorum", line, from),
        RoundEnd::Down(member) => write_named(b"down ", u64::from(member.value()), line, from),
        RoundEnd::Behind(member) => write_named(b"behind ", u64::from(member.value()), line, from),
        RoundEnd::Refused(fault) => write_named(b"refused ", u64::from(fault.code()), line, from),
        RoundEnd::Stopped(member) => {
            write_named(b"stopped ", u64::from(member.value()), line, from)
        }
        RoundEnd::TooLow(promised) => {
            let promised = promised.ballot();
            let start = write_number(u64::from(promised.node), line, from);
            let start = write_byte(b'.', line, start);
            write_named(b"low ", promised.round, line, start)
        }
        RoundEnd::Decided(slot) => write_named(b"decided ", u64::from(slot.value()), line, from),
    }
}

/// Writes a word and a number.
fn write_named(word: &[u8], number: u64, line: &mut [u8], end: usize) -> usize
    requires short { length word.now ≤ LONGEST_WORD }
    requires room { LONGEST_WORD + LONGEST_WHOLE ≤ end }
    requires in_line { end ≤ length line.old }
    ensures start { result ≤ end }
    ensures near { end ≤ result + (LONGEST_WORD + LONGEST_WHOLE) }
    ensures written { drop result line.new ≡ word.now ++ decimal number ++ drop end line.old }
{
    let start = write_number(number, line, end);
    write_text(word, line, start)
}

/// Writes a number in decimal.
fn write_number(n: u64, line: &mut [u8], end: usize) -> usize
    requires room { LONGEST_WHOLE ≤ end }
    requires in_line { end ≤ length line.old }
    ensures start { result + length (decimal n) ≡ end }
    ensures short { length (decimal n) ≤ LONGEST_WHOLE }
    ensures written { drop result line.new ≡ decimal n ++ drop end line.old }
{
    write_digits(n, line, end)
}
