// One whole message answered on a lent book, into a lent output: an answer as bytes, the room for it; and the bytes
// that open a book.
#![tactic(auto)]

ghost use Rattle.promise.specs.Spoken.{spoken};
ghost use Rattle.wire.specs.Write.{Meets};
ghost use Rattle.answer.specs.Speech.{say_on};
ghost use Rattle.std.specs.Prelude.{◌≡◌, T};
ghost use Rattle.promise.specs.Lent.{tap_on, question_on, gossip_on, put_front};
ghost use Rattle.open_step.specs.Opening.{Opens};
ghost use Rattle.answer.specs.Speech.{bytes_for, sayable};
ghost use Rattle.answer.specs.Answer.{done_by, send_done, bad_on, other_done, kind_in, answer_by, answer_on, Answers};
ghost use Rattle.answer.specs.Answer.{room_for, open_from, long_in};

use book::{gossip_stop, open, question, send, tap_stop};
use gossip_step::take_gossip;
use lent::BOOK;
use promise::Reply;
use replies::{
    write_already, write_gossip_taken, write_refusal, write_taken, write_verdict, write_wait,
};
use requests::{read_open, read_send};
use soundness::sound;
use tap_step::take_tap;
use wire::{GOSSIP_ROOM, HEAD, KIND_SIZE, QUESTION, REFUSAL_BODY, Refusal, TAP, TAP_ROOM, room_of};

pub fn speak(reply: Reply, out: &mut [u8]) -> Result<usize, Refusal>
    ensures { Meets (say_on (spoken reply) out.old) result out.new }
{
    match reply {
        Reply::Taken(stamp) => write_taken(stamp, out),
        Reply::Already(stamp) => write_already(stamp, out),
        Reply::Verdict(answer) => write_verdict(answer, out),
        Reply::Wait(bits) => write_wait(bits, out),
        Reply::Refused(number) => write_refusal(number, out),
        Reply::Gossiped(taken) => write_gossip_taken(taken, out),
    }
}

// The longest reply to bytes that are no request.
const REFUSAL_ROOM: usize = KIND_SIZE + REFUSAL_BODY;

// The byte of kind, 0 where there is none.
fn kind_of(msg: &[u8]) -> u8
    ensures { result ≡ kind_in msg.now }
{
    match msg {
        [kind, ..] => *kind,
        [] => 0,
    }
}

// A reply at the front of an output, and how long it is; 0 where the output is shorter, which then stays. Kept: a 0,
// since C's `consent_answer` gives it.
fn put(reply: Reply, out: &mut [u8]) -> usize
    requires { T (sayable (spoken reply)) }
    ensures value { result ≡ long_in (put_front (bytes_for (spoken reply)) out.old).answer }
    ensures out_after { out.new ≡ (put_front (bytes_for (spoken reply)) out.old).bytes }
{
    speak(reply, out).unwrap_or(0)
}

// What stops a tap is said; one that nothing stops is taken only where Taken has room.
fn answer_tap(b: &mut [u64], msg: &[u8], out: &mut [u8]) -> usize
    ensures { Answers
        (answer_by (done_by (tap_on b.old msg.now)) b.old out.old) result
        b.new out.new }
{
    match tap_stop(b, msg) {
        Err(reply) => put(reply, out),
        Ok(asked) => {
            if out.len() < TAP_ROOM {
                return 0;
            }
            put(take_tap(b, asked), out)
        }
    }
}

fn answer_question(b: &[u64], msg: &[u8], out: &mut [u8]) -> usize
    ensures { Answers
        (answer_by (done_by (question_on b.now msg.now)) b.now out.old) result
        b.now out.new }
{
    put(question(b, msg), out)
}

// What stops a gossip is said; one that nothing stops is taken only where its reply has room.
fn answer_gossip(b: &mut [u64], msg: &[u8], out: &mut [u8]) -> usize
    ensures { Answers
        (answer_by (done_by (gossip_on b.old msg.now)) b.old out.old) result
        b.new out.new }
{
    match gossip_stop(b, msg) {
        Err(reply) => put(reply, out),
        Ok(incoming) => {
            if out.len() < GOSSIP_ROOM {
                return 0;
            }
            put(take_gossip(b, msg, incoming), out)
        }
    }
}

fn answer_send(b: &[u64], out: &mut [u8]) -> usize
    ensures { Answers (answer_by (send_done b.now) b.now out.old) result
        b.now out.new }
{
    match send(b, out) {
        Ok(long) => long,
        Err(Refusal::Short) => 0,
        Err(refusal) => put(Reply::from(refusal), out),
    }
}

fn answer_bad(b: &[u64], out: &mut [u8]) -> usize
    ensures { Answers (answer_by (done_by (bad_on b.now)) b.now out.old) result
        b.now out.new }
{
    if !sound(b) {
        return put(Reply::from(Refusal::Unsound), out);
    }
    put(Reply::from(Refusal::Bad), out)
}

// Send, or bytes that are no request.
fn answer_other(b: &[u64], msg: &[u8], out: &mut [u8]) -> usize
    ensures { Answers
        (answer_by (other_done b.now msg.now) b.now out.old) result
        b.now out.new }
{
    match read_send(msg) {
        Ok(()) => answer_send(b, out),
        Err(_) => answer_bad(b, out),
    }
}

// The reply to one whole message of kind 1, 3, 4 or 12 at the front of out, and how long it is; 0 where out is shorter
// than it.
pub fn answer(b: &mut [u64], msg: &[u8], out: &mut [u8]) -> usize
    ensures { Answers (answer_on b.old msg.now out.old) result b.new
        out.new }
{
    match kind_of(msg) {
        HEAD => answer_gossip(b, msg, out),
        TAP => answer_tap(b, msg, out),
        QUESTION => answer_question(b, msg, out),
        _ => answer_other(b, msg, out),
    }
}

// How long the reply to a request is at most, by its byte of kind.
pub fn reply_room(msg: &[u8]) -> usize
    ensures { result ≡ room_for msg.now }
{
    room_of(kind_of(msg)).unwrap_or(REFUSAL_ROOM)
}

// Kind 11's bytes open the lent book.
pub fn open_from(b: &mut [u64], msg: &[u8]) -> Result<(), Refusal>
    ensures { Opens (open_from b.old msg.now) result b.new }
{
    if b.len() != BOOK {
        return Err(Refusal::Unsound);
    }
    let opening = read_open(msg)?;
    open(b, opening.screen, opening.screens)
}
