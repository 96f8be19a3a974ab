// The book on a lent slice: open, tap, question, send and gossip. Every entry judges its own arguments.
#![tactic(auto)]

ghost use Rattle.promise.specs.Lent.{Promise, tap_on, question_on, gossip_on, send_on, open_on};
ghost use Rattle.open_step.specs.Opening.{Opens};
ghost use Rattle.wire.specs.Write.{Meets};
ghost use Rattle.book.specs.Stop.{TapStopOn, GossipStopOn};

use ask_step::ask_book;
use gossip_step::{Incoming, stop_gossip, take_gossip};
use lent::screens_of;
use message::read_gossip;
use open_step::open_book;
use promise::Reply;
use requests::{read_question, read_tap};
use send_step::send_book;
use soundness::sound;
use tap_step::{stop_tap, take_tap};
use wire::{Refusal, TapRequest};

// The fresh book of screen i of n, or why there is none.
pub fn open(b: &mut [u64], i: u64, n: u64) -> Result<(), Refusal>
    ensures { Opens (open_on b.old i n) result b.new }
{
    open_book(b, i, n)
}

// The tap and the label that the bytes hold, where it may be taken; or the reply that stops it, judged before any word
// changes.
pub fn tap_stop(b: &[u64], msg: &[u8]) -> Result<TapRequest, Reply>
    ensures { TapStopOn b.now msg.now result }
{
    if !sound(b) {
        return Err(Reply::from(Refusal::Unsound));
    }
    let asked = read_tap(msg, screens_of(b) as usize)?;
    stop_tap(b, asked)
}

pub fn tap(b: &mut [u64], msg: &[u8]) -> Reply
    ensures { Promise (tap_on b.old msg.now) result b.new }
{
    match tap_stop(b, msg) {
        Ok(asked) => take_tap(b, asked),
        Err(reply) => reply,
    }
}

// The book does not change: it is lent to be read only.
pub fn question(b: &[u64], msg: &[u8]) -> Reply
    ensures { Promise (question_on b.now msg.now) result b.now }
{
    if !sound(b) {
        return Reply::from(Refusal::Unsound);
    }
    match read_question(msg, screens_of(b) as usize) {
        Ok(question) => ask_book(b, question),
        Err(refusal) => Reply::from(refusal),
    }
}

// The known stamp and the whole log as one gossip message at the front of out; the rest of out stays.
pub fn send(b: &[u64], out: &mut [u8]) -> Result<usize, Refusal>
    ensures { Meets (send_on b.now out.old) result out.new }
{
    if !sound(b) {
        return Err(Refusal::Unsound);
    }
    send_book(b, out)
}

// The gossip's head and how many of its records are new, where it may be taken; or the reply that stops it, judged
// before any word changes.
pub fn gossip_stop(b: &[u64], msg: &[u8]) -> Result<Incoming, Reply>
    ensures { GossipStopOn b.now msg.now result }
{
    if !sound(b) {
        return Err(Refusal::Unsound.into());
    }
    let head = read_gossip(msg)?;
    stop_gossip(b, msg, head)
}

pub fn gossip(b: &mut [u64], msg: &[u8]) -> Reply
    ensures { Promise (gossip_on b.old msg.now) result b.new }
{
    match gossip_stop(b, msg) {
        Ok(incoming) => take_gossip(b, msg, incoming),
        Err(reply) => reply,
    }
}
