// A tap on a sound book: what stops it (refused, or known already), judged before any word changes; and its taking.
#![tactic(auto)]

ghost use Rattle.std.specs.Prelude.{◌≡◌, ◌+◌, ◌-◌, ◌<◌, T, leb, length, get_or};
ghost use Rattle.std.proofs.Math.Option.{none};
ghost use Rattle.lists.specs.Tests.{first_of};
ghost use Rattle.limits.specs.Limits.{word, book_room};
ghost use Rattle.stamp.specs.Parts.{list_of};
ghost use Rattle.stamp.specs.Stamp.{part, stamp_fits, total};
ghost use Rattle.tally.specs.Body.{body_of, body_fits};
ghost use Rattle.tally.specs.Tap.{tap_fits};
ghost use Rattle.ledger.specs.Record.{stamp_of};
ghost use Rattle.book_log.specs.Region.{stamp_long, record_at};
ghost use Rattle.meaning.specs.Book.{known};
ghost use Rattle.meaning.specs.Step.{new_record, take_book, tap_stops, tap_step};
ghost use Rattle.meaning.specs.Done.{TakeDone};
ghost use Rattle.lent.specs.Held.{Held};
ghost use Rattle.lent.specs.Words.{book_of, words_of, lawful};
ghost use Rattle.lent.specs.Rows.{no_record};
ghost use Rattle.promise.specs.Lent.{Promise};
ghost use Rattle.promise.specs.LentLaws.{lent_of};
ghost use Rattle.tap_step.specs.Stop.{StopsTap};

use ask_step::label_unknown;
use book_log::{NUMBER, ROW, make_row};
use lent::{
    find_logged, is_counted, known_of, log_row, logged_of, put_record, raise_own, ready_of,
    screen_of, value_of,
};
use limits::{book_room, log_room};
use promise::Reply;
use settle::{row_stamp, settle_book};
use stamp::{Parts, part_at, parts_at, sum};
use tally::pack;
use wire::{Refusal, TapRequest};

// The stamp of a row's record.
fn stamp_parts(row: &[u64; ROW]) -> Parts
    requires { (record_at row.now).origin < stamp_long }
    ensures { list_of result ≡ stamp_of (record_at row.now) }
{
    let s = row_stamp(row);
    parts_at(&s, 0)
}

// The stamp of the log's i-th record.
fn logged_stamp(b: &[u64], i: usize) -> Parts
    requires t { T (lawful b.now) }
    requires i_in_bounds { i < length (book_of b.now).log }
    ensures { list_of result ≡ stamp_of (get_or (book_of b.now).log i no_record) }
{
    let row = log_row(b, i);
    stamp_parts(&row)
}

// Whether the book knows as many records as it may.
fn is_spent(b: &[u64]) -> bool
    requires { T (lawful b.now) }
    ensures { result ≡ leb book_room (total (known (book_of b.now))) }
{
    let s = known_of(b);
    book_room() <= sum(&s)
}

// The row of the record that is made of body w.
fn new_row(b: &[u64], w: u64, label: Parts) -> [u64; ROW]
    requires held { Held b.now }
    requires b_bound { (book_of b.now).me < (book_of b.now).screens }
    requires b_bound_2 { part (known (book_of b.now)) (book_of b.now).me < word }
    requires t { T (body_fits w) }
    ensures { record_at result ≡ new_record (book_of b.now) (body_of w) (list_of label) }
{
    let i = screen_of(b);
    let s = known_of(b);
    make_row(i, part_at(&s, i) + 1, label, w)
}

// The record that is made of body w put into the book, and the book put in order. Gives the record's stamp.
fn enter(b: &mut [u64], w: u64, label: Parts) -> Parts
    requires held { Held b.old }
    requires t { T (body_fits w) }
    requires take_done { TakeDone (book_of b.old) (body_of w) (list_of label) }
    ensures b_after { b.new ≡ words_of (take_book (book_of b.old) (body_of w) (list_of label)) }
    ensures result_value { list_of result ≡ stamp_of (new_record (book_of b.old) (body_of w) (list_of label)) }
{
    let before = ready_of(b);
    let row = new_row(b, w, label);
    raise_own(b, row[NUMBER]);
    put_record(b, &row);
    settle_book(b, &before);
    stamp_parts(&row)
}

// The tap, where it may be taken; or the reply that stops it. No word changes.
pub fn stop_tap(b: &[u64], asked: TapRequest) -> Result<TapRequest, Reply>
    requires sound { T (lawful b.now) }
    requires tap_fits { T (tap_fits asked.tap) }
    requires label_fits { T (stamp_fits (book_of b.now).screens (list_of asked.label)) }
    ensures { StopsTap (book_of b.now) asked result }
{
    if label_unknown(b, asked.label) {
        return Err(Reply::from(Refusal::UnknownLabel));
    }
    let w = pack(asked.tap);
    if is_counted(b, w) {
        return Err(Reply::Already(value_of(b)));
    }
    if let Some(i) = find_logged(b, w) {
        return Err(Reply::Already(logged_stamp(b, i)));
    }
    if is_spent(b) {
        return Err(Reply::from(Refusal::Spent));
    }
    if log_room() <= logged_of(b) as u64 {
        return Err(Reply::from(Refusal::NoRoom));
    }
    Ok(asked)
}

// A tap that nothing stops, taken.
pub fn take_tap(b: &mut [u64], asked: TapRequest) -> Reply
    requires sound { T (lawful b.old) }
    requires unstopped { first_of (tap_stops (book_of b.old) asked.tap (list_of asked.label)) ≡ none }
    ensures { Promise (lent_of (tap_step (book_of b.old) asked.tap (list_of asked.label))) result b.new }
{
    let w = pack(asked.tap);
    Reply::Taken(enter(b, w, asked.label))
}
