// Gossip on a sound book: why it is refused, by its head, then its records, judged before any word changes; its taking.
#![tactic(auto)]

ghost use Rattle.std.specs.Prelude.{◌≡◌, ◌<◌, ◌+◌, ◌-◌, ◌*◌, ◌≤◌, T, ltb, length};
ghost use Rattle.lists.specs.Tests.{every, first_of};
ghost use Rattle.limits.specs.Limits.{word, log_room};
ghost use Rattle.stamp.specs.Stamp.{stamp_fits, merge, total};
ghost use Rattle.book_log.specs.Region.{stamp_long, row_long, records_at};
ghost use Rattle.meaning.specs.Book.{row, known};
ghost use Rattle.lent.specs.Words.{book_of, lawful, words_of};
ghost use Rattle.gossip_step.specs.Refusals.{refused_number, row_refusal, own_refusal, stamp_refusal};
ghost use Rattle.lists.specs.Part.{mid, patch};
ghost use Rattle.stamp.specs.Parts.{list_of};
ghost use Rattle.ledger.specs.Log.{gathered, unknowns};
ghost use Rattle.log_edit.specs.Merge.{Fresh, merged};
ghost use Rattle.message.specs.Message.{records_in, message_of};
ghost use Rattle.lent.specs.Held.{Held};
ghost use Rattle.lent.specs.With.{with_table, with_log};
ghost use Rattle.gossip_step.specs.Taken.{raised_rows, Raisable, Coming};
ghost use Rattle.std.proofs.Math.Option.{none};
ghost use Rattle.meaning.specs.Step.{now_applied, new_ones, hear_book, gossip_stops, gossip_step};
ghost use Rattle.meaning.specs.Done.{GossipDone};
ghost use Rattle.promise.specs.Lent.{Promise};
ghost use Rattle.promise.specs.LentLaws.{lent_of};
ghost use Rattle.gossip_step.specs.Heard.{Hears};
ghost use Rattle.gossip_step.specs.Stop.{StopsGossip};

use arrivals::{look_at, merge_new};
use lent::{
    known_of, log_end, log_start, logged_of, raise_row, ready_of, row_of, screen_of, screens_of,
    set_logged,
};
use limits::{PARTS, book_room, log_room};
use promise::Reply;
use settle::settle_book;
use stamp::{Parts, at_most, list_of, merge_into, parts_at, sum};
use wire::{GossipTaken, Head, Refusal};

// The sum of the merged stamp's parts, in a number that holds eight of 32 bits.
fn merged_sum(a: &[u64], m: &[u64]) -> u64
    requires a_len { (length a.now ≡ stamp_long) × (length m.now ≡ stamp_long) }
    requires t { T (every (λ x. ltb x word) (merge a.now m.now)) }
    ensures { result ≡ total (merge a.now m.now) }
{
    let mut s = list_of(parts_at(a, 0));
    merge_into(&mut s, m);
    sum(&s)
}

// A stamp against the sender's row.
fn row_refusal(row: &[u64], m: &[u64]) -> Result<(), Refusal>
    requires { length row.now ≡ length m.now }
    ensures { refused_number result ≡ row_refusal row.now m.now }
{
    if at_most(m, row) {
        return Err(Refusal::Old);
    }
    if !at_most(row, m) {
        return Err(Refusal::Crossed);
    }
    Ok(())
}

// A stamp against our own.
fn own_refusal(known: &[u64], me: usize, m: &[u64]) -> Result<(), Refusal>
    requires known_len { (length known.now ≡ stamp_long) × (length m.now ≡ stamp_long) × (me < stamp_long) }
    requires t { T (every (λ x. ltb x word) (merge known.now m.now)) }
    ensures { refused_number result ≡ own_refusal known.now me m.now }
{
    if known[me] < m[me] {
        return Err(Refusal::Ahead);
    }
    if book_room() < merged_sum(known, m) {
        return Err(Refusal::Spent);
    }
    Ok(())
}

// The refusal that needs no record: by the head's screens and sender, then by its stamp.
pub fn stamp_refusal(b: &[u64], sender: u64, screens: u64, m: &[u64]) -> Result<(), Refusal>
    requires sound { T (lawful b.now) }
    requires sender_fits { (sender < screens) × T (stamp_fits screens m.now) }
    ensures { refused_number result ≡ stamp_refusal (book_of b.now) sender screens m.now }
{
    if screens != screens_of(b) {
        return Err(Refusal::WrongHouse);
    }
    let me = screen_of(b);
    if sender == me {
        return Err(Refusal::WrongHouse);
    }
    let row = row_of(b, sender as usize);
    row_refusal(&row, m)?;
    let known = known_of(b);
    own_refusal(&known, me as usize, m)
}

// Row j set to m, and our own row to the merged stamp. Row j is at most m, so merging sets it.
pub fn raise_rows(b: &mut [u64], j: usize, m: &[u64])
    requires held { Held b.old }
    requires raisable { Raisable (book_of b.old) j m.now }
    ensures { b.new
        ≡ words_of (with_table (raised_rows (book_of b.old) j m.now) (book_of b.old)) }
{
    let me = screen_of(b) as usize;
    raise_row(b, j, m);
    raise_row(b, me, m);
}

// A message's new records merged into the log that stands from a up to e.
fn merge_at(
    b: &mut [u64],
    a: usize,
    e: usize,
    logged: usize,
    new: usize,
    msg: &[u8],
    count: usize,
    n: usize,
    m: Parts,
    known: &[u64],
)
    requires a_le_e { (a ≤ e) × (e ≤ length b.old) × ((logged + new) * row_long ≤ e - a) }
    requires coming { Coming msg.now n count (list_of m) known.now new }
    requires fresh { Fresh (unknowns known.now (records_in msg.now)) (records_at logged (mid a (e - a) b.old)) }
    ensures { b.new
        ≡ patch a (e - a) b.old
        (merged (unknowns known.now (records_in msg.now)) logged new
        (mid a (e - a) b.old)) }
{
    merge_new(&mut b[a..e], logged, new, msg, count, n, m, known);
}

// A message's new records put into the book's log.
pub fn take_new(
    b: &mut [u64],
    new: usize,
    msg: &[u8],
    count: usize,
    n: usize,
    m: Parts,
    known: &[u64],
)
    requires held { Held b.old }
    requires coming { Coming msg.now n count (list_of m) known.now new }
    requires fresh { Fresh (unknowns known.now (records_in msg.now)) (book_of b.old).log }
    requires len_bound { length (book_of b.old).log + new ≤ log_room }
    ensures { b.new
        ≡ words_of (with_log (gathered (unknowns known.now (records_in msg.now))
        (book_of b.old).log) (book_of b.old)) }
{
    let logged = logged_of(b);
    merge_at(
        b,
        log_start(),
        log_end(),
        logged,
        new,
        msg,
        count,
        n,
        m,
        known,
    );
    set_logged(b, logged + new);
}

// A gossip that may be taken: its head, and how many of its records are new.
#[derive(Clone, Copy)]
pub struct Incoming {
    pub head: Head,
    pub new: usize,
}

// What a gossip does that nothing stops, `old` being the known stamp and `new` the number of its new records. Gives how
// many records became applied.
fn take_in(b: &mut [u64], msg: &[u8], incoming: Incoming, old: &[u64; PARTS]) -> u64
    requires sound { T (lawful b.old) }
    requires heard { Hears msg.now incoming.head }
    requires gossip_done { GossipDone (book_of b.old) (message_of msg.now) }
    requires old_known { old.now ≡ known (book_of b.old) }
    requires new_number { incoming.new ≡ length (new_ones (book_of b.old) (message_of msg.now)) }
    ensures b_after { b.new ≡ words_of (hear_book (book_of b.old) (message_of msg.now)) }
    ensures applied_number { result ≡ length
        (now_applied (book_of b.old)
        (merge (known (book_of b.old)) (message_of msg.now).stamp)
        (new_ones (book_of b.old) (message_of msg.now))) }
{
    let before = ready_of(b);
    let head = incoming.head;
    let s = list_of(head.stamp);
    raise_rows(b, head.sender as usize, &s);
    take_new(
        b,
        incoming.new,
        msg,
        head.count as usize,
        head.screens as usize,
        head.stamp,
        old,
    );
    settle_book(b, &before)
}

// What stops a gossip whose stamp does not: a record that is missing, or too many that are new.
fn stop_records(b: &[u64], msg: &[u8], head: Head) -> Result<Incoming, Reply>
    requires sound { T (lawful b.now) }
    requires heard { Hears msg.now head }
    requires stamp_stands { stamp_refusal (book_of b.now) head.sender head.screens (list_of head.stamp) ≡ 0 }
    ensures { StopsGossip (book_of b.now) (message_of msg.now) head result }
{
    let known = known_of(b);
    let Ok(new) = look_at(
        msg,
        head.count as usize,
        head.screens as usize,
        head.stamp,
        &known,
    ) else {
        return Err(Reply::from(Refusal::Gap));
    };
    if log_room() < (logged_of(b) + new) as u64 {
        return Err(Reply::from(Refusal::NoRoom));
    }
    Ok(Incoming { head, new })
}

// A well formed gossip, its head read, where it may be taken; or the reply that stops it. No word changes.
pub fn stop_gossip(b: &[u64], msg: &[u8], head: Head) -> Result<Incoming, Reply>
    requires sound { T (lawful b.now) }
    requires heard { Hears msg.now head }
    ensures { StopsGossip (book_of b.now) (message_of msg.now) head result }
{
    let s = list_of(head.stamp);
    stamp_refusal(b, head.sender, head.screens, &s)?;
    stop_records(b, msg, head)
}

// A gossip that nothing stops, taken.
pub fn take_gossip(b: &mut [u64], msg: &[u8], incoming: Incoming) -> Reply
    requires sound { T (lawful b.old) }
    requires heard { Hears msg.now incoming.head }
    requires unstopped { first_of (gossip_stops (book_of b.old) (message_of msg.now)) ≡ none }
    requires new_number { incoming.new ≡ length (new_ones (book_of b.old) (message_of msg.now)) }
    ensures { Promise (lent_of (gossip_step (book_of b.old) (message_of msg.now))) result
        b.new }
{
    let known = known_of(b);
    let applied = take_in(b, msg, incoming, &known);
    Reply::Gossiped(GossipTaken {
        new: incoming.new as u64,
        applied,
    })
}
