// The book put in order, in place: what is newly applied is merged into the value stamp and counted, then what may go
// is dropped.
#![tactic(auto)]

ghost use Rattle.std.specs.Prelude.{◌≡◌, [], ◌∷◌, ◌<◌, length, get_or};
ghost use Rattle.tally.specs.Tap.{tap_of};
ghost use Rattle.ledger.specs.Log.{newly_applied};
ghost use Rattle.ledger.specs.Record.{stamp_of};
ghost use Rattle.book_log.specs.Region.{stamp_long, record_at};
ghost use Rattle.meaning.specs.Book.{ready};
ghost use Rattle.lent.specs.Held.{Held};
ghost use Rattle.lent.specs.Rows.{no_record};
ghost use Rattle.lent.specs.Words.{book_of, words_of};
ghost use Rattle.settle.specs.Moves.{count_taps, added, is_newly_applied, apply_one, apply_all, settled};
ghost use Rattle.settle.specs.Ready.{Countable, Applicable, Appliable};

use book_log::{BODY, LABEL, NUMBER, ORIGIN, ROW, is_applied};
use lent::{drop_log, insert_tap, is_counted, log_row, logged_of, merge_value, note_tap, ready_of};
use limits::PARTS;
use stamp::{list_of, parts_at, replace_part};

// Counts the tap of w, unless it is counted.
fn count_tap(b: &mut [u64], w: u64)
    requires held { Held b.old }
    requires countable { Countable w (book_of b.old) }
    ensures { b.new ≡ words_of (count_taps (tap_of w ∷ []) (book_of b.old)) }
{
    if is_counted(b, w) {
        return;
    }
    note_tap(b, w);
    insert_tap(b, w);
}

// The stamp of a row's record.
pub fn row_stamp(row: &[u64; ROW]) -> [u64; PARTS]
    requires { (record_at row.now).origin < stamp_long }
    ensures { result ≡ stamp_of (record_at row.now) }
{
    let mut s = list_of(parts_at(row, LABEL));
    replace_part(&mut s, row[ORIGIN] as usize, row[NUMBER]);
    s
}

// A row's record merged into the value stamp, and its tap counted.
fn apply_record(b: &mut [u64], row: &[u64; ROW])
    requires held { Held b.old }
    requires origin { (record_at row.now).origin < stamp_long }
    requires countable { Countable (record_at row.now).body (book_of b.old) }
    ensures { b.new ≡ words_of (added (record_at row.now) (book_of b.old)) }
{
    let s = row_stamp(row);
    merge_value(b, &s);
    count_tap(b, row[BODY]);
}

// Whether a row's record is applied under s and was not before.
#[tactic(auto, unfolding(crate::specs::Moves::is_newly_applied))]
fn is_newly_applied(row: &[u64; ROW], before: &[u64; PARTS], s: &[u64; PARTS]) -> bool
    ensures { result ≡ is_newly_applied before.now s.now (record_at row.now) }
{
    is_applied(row, s) && !is_applied(row, before)
}

// Applies the log's i-th record if it is applied under s and was not before. Tells whether.
fn apply_row(b: &mut [u64], i: usize, before: &[u64; PARTS], s: &[u64; PARTS]) -> bool
    requires held { Held b.old }
    requires i_in_bounds { i < length (book_of b.old).log }
    requires applicable { Applicable before.now s.now (get_or (book_of b.old).log i no_record) (book_of b.old) }
    ensures b_after { b.new
        ≡ words_of (apply_one before.now s.now (get_or (book_of b.old).log i no_record)
        (book_of b.old)) }
    ensures value { result ≡ is_newly_applied before.now s.now
        (get_or (book_of b.old).log i no_record) }
{
    let row = log_row(b, i);
    if !is_newly_applied(&row, before, s) {
        return false;
    }
    apply_record(b, &row);
    true
}

// Applies what of the log is applied under s and was not before, from the last record to the first. Gives how many.
fn apply_log(b: &mut [u64], before: &[u64; PARTS], s: &[u64; PARTS]) -> u64
    requires held { Held b.old }
    requires appliable { Appliable before.now s.now (book_of b.old) }
    ensures b_after { b.new
        ≡ words_of (apply_all before.now s.now (book_of b.old).log
        (book_of b.old)) }
    ensures value { result ≡ length
        (newly_applied before.now s.now (book_of b.old).log) }
{
    let mut n: u64 = 0;
    for i in (0..logged_of(b)).rev() {
        n += u64::from(apply_row(b, i, before, s));
    }
    n
}

// Puts the book in order, whose ready stamp was `before`. Gives how many records became applied.
pub fn settle_book(b: &mut [u64], before: &[u64; PARTS]) -> u64
    requires held { Held b.old }
    requires b_bound { (book_of b.old).me < (book_of b.old).screens }
    requires appliable { Appliable before.now (ready (book_of b.old)) (book_of b.old) }
    ensures b_after { b.new ≡ words_of (settled before.now (book_of b.old)) }
    ensures value { result
        ≡ length (newly_applied before.now (ready (book_of b.old))
        (book_of b.old).log) }
{
    let s = ready_of(b);
    let n = apply_log(b, before, &s);
    drop_log(b);
    n
}
