// The decisions of document 01's small program: what it does next, given the book, what is read so far, and whether the
// input has ended.
#![tactic(auto)]

ghost use Rattle.std.specs.Prelude.{◌≡◌, false, ◌++◌, ◌≤◌, length, drop};
ghost use Rattle.wire.specs.Kinds.{longest};
ghost use Rattle.answer.specs.Speech.{refusal_bytes};
ghost use Rattle.program.specs.Turn.{more_turn, message_turn, turn_on, Turns};
ghost use Rattle.program.specs.declared.Turn.TheVariants.{Last};

use answer::{answer, open_from, speak};
use frames::{Frame, next_in};
use promise::Reply;
use wire::Refusal;

// Read until so many bytes are there in all, or the input ends; so many bytes of what is read are used up, and so many
// at the output's front are said; so many are said, and the program stops; it stops without a word.
#[derive(Clone, Copy, Debug, PartialEq, Eq)]
pub enum Turn {
    Read(usize),
    Say { used: usize, said: usize },
    Last(usize),
    Stop,
}

// A refusal is said, and the program stops.
fn last_refusal(refused: Refusal, out: &mut [u8]) -> Turn
    requires { longest ≤ length out.old }
    ensures value { result ≡ Last (length (refusal_bytes refused)) }
    ensures out_after { out.new ≡ refusal_bytes refused ++ drop (length (refusal_bytes refused)) out.old }
{
    match speak(Reply::from(refused), out) {
        Ok(n) => Turn::Last(n),
        Err(_) => Turn::Stop,
    }
}

// What is read is no whole message yet, which needs n bytes. Only between two messages may the input end.
fn more_turn(book: &[u64], read: &[u8], ended: bool, opened: bool, n: usize, out: &mut [u8]) -> Turn
    requires { longest ≤ length out.old }
    ensures { Turns (more_turn book.now read.now ended opened n) result book.now
        out.old out.new }
{
    if !ended {
        return Turn::Read(n);
    }
    if opened && read.is_empty() {
        return Turn::Stop;
    }
    last_refusal(Refusal::Bad, out)
}

// The first message opens the book.
fn open_turn(book: &mut [u64], msg: &[u8], out: &mut [u8]) -> Turn
    requires { longest ≤ length out.old }
    ensures { Turns (message_turn book.old msg.now false) result book.new
        out.old out.new }
{
    match open_from(book, msg) {
        Ok(()) => Turn::Say {
            used: msg.len(),
            said: 0,
        },
        Err(refused) => last_refusal(refused, out),
    }
}

// A whole message: kind 11 first, then requests, each with its reply.
fn message_turn(book: &mut [u64], msg: &[u8], opened: bool, out: &mut [u8]) -> Turn
    requires { longest ≤ length out.old }
    ensures { Turns (message_turn book.old msg.now opened) result book.new
        out.old out.new }
{
    if !opened {
        return open_turn(book, msg, out);
    }
    let said = answer(book, msg, out);
    Turn::Say {
        used: msg.len(),
        said,
    }
}

// What the program does next: `read` is what is read and not yet used, `out` has room for the longest message.
pub fn next_turn(book: &mut [u64], read: &[u8], ended: bool, opened: bool, out: &mut [u8]) -> Turn
    requires { longest ≤ length out.old }
    ensures { Turns (turn_on book.old read.now ended opened) result book.new
        out.old out.new }
{
    match next_in(read, opened) {
        Frame::More(n) => more_turn(book, read, ended, opened, n, out),
        Frame::Whole(n) => message_turn(book, &read[..n], opened, out),
        Frame::Stop => last_refusal(Refusal::Bad, out),
    }
}
