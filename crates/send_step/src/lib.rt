// Send: the known stamp and the whole log as one gossip message at the front of a lent output.
#![tactic(auto, using(crate::proofs::Held::held))]

ghost use Rattle.std.specs.Prelude.{◌≡◌, ◌≤◌, T, length};
ghost use Rattle.stamp.specs.Parts.{list_of};
ghost use Rattle.book_log.specs.Region.{record_at};
ghost use Rattle.wire.specs.Kinds.{record_kind, head_long, record_long};
ghost use Rattle.wire.specs.Write.{Meets, writable, written};
ghost use Rattle.message.specs.Message.{line_for, message_bytes};
ghost use Rattle.meaning.specs.Book.{known};
ghost use Rattle.meaning.specs.Step.{send};
ghost use Rattle.lent.specs.Words.{book_of, lawful};
ghost use Rattle.promise.specs.Lent.{put_front};
ghost use Rattle.send_step.specs.Parts.{start_at, with_head, with_records};

use book_log::{BODY, LABEL, NUMBER, ORIGIN, ROW};
use lent::{known_of, log_rows, logged_of, screen_of, screens_of};
use requests::{write_head, write_record};
use stamp::{Parts, parts_at};
use tally::unpack;
use wire::{HEAD_SIZE, Head, RECORD_SIZE, Record, Refusal};

// The known stamp.
fn stamp_of(b: &[u64]) -> Parts
    requires { T (lawful b.now) }
    ensures { list_of result ≡ known (book_of b.now) }
{
    let s = known_of(b);
    parts_at(&s, 0)
}

// The message's head at the front of out, which has m as its stamp.
fn put_head(b: &[u64], m: Parts, out: &mut [u8])
    requires t { T (lawful b.now) }
    requires m_value { list_of m ≡ known (book_of b.now) }
    requires head_long_in_bounds { head_long ≤ length out.old }
    ensures { out.new ≡ with_head (send (book_of b.now)) out.old }
{
    let head = Head {
        sender: screen_of(b),
        screens: screens_of(b),
        count: logged_of(b) as u64,
        stamp: m,
    };
    let _ = write_head(head, out);
}

// A row's record over the whole of a part, in a message of n screens and stamp m.
fn put_row(row: &[u64; ROW], n: usize, m: Parts, part: &mut [u8])
    requires part_len { length part.old ≡ record_long }
    requires t { T (writable (record_kind n (list_of m)) (line_for (record_at row.now))) }
    ensures { part.new ≡ written (record_kind n (list_of m)) (line_for (record_at row.now)) }
{
    let entry = Record {
        origin: row[ORIGIN],
        number: row[NUMBER],
        label: parts_at(row, LABEL),
        tap: unpack(row[BODY]),
    };
    let _ = write_record(entry, n, m, part);
}

// The log's records behind the head.
fn put_records(b: &[u64], m: Parts, out: &mut [u8])
    requires t { T (lawful b.now) }
    requires m_value { list_of m ≡ known (book_of b.now) }
    requires b_in_bounds { start_at (length (book_of b.now).log) ≤ length out.old }
    ensures { out.new
        ≡ with_records (send (book_of b.now)) (book_of b.now).log head_long
        (start_at (length (book_of b.now).log)) out.old }
{
    let screens = screens_of(b) as usize;
    for (i, row) in log_rows(b).iter().enumerate() {
        let at = HEAD_SIZE + i * RECORD_SIZE;
        put_row(row, screens, m, &mut out[at..at + RECORD_SIZE]);
    }
}

// The message of a sound book, or refusal 12 where the output is shorter than it. Output past the message stays.
pub fn send_book(b: &[u64], out: &mut [u8]) -> Result<usize, Refusal>
    requires { T (lawful b.now) }
    ensures { Meets (put_front (message_bytes (send (book_of b.now))) out.old) result
        out.new }
{
    let long = HEAD_SIZE + logged_of(b) * RECORD_SIZE;
    if out.len() < long {
        return Err(Refusal::Short);
    }
    let m = stamp_of(b);
    put_head(b, m, out);
    put_records(b, m, out);
    Ok(long)
}
