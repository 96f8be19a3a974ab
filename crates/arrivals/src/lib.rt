// The records of a gossip message as rows of the log: read one by one, surveyed in one pass, merged into the log's
// region.
#![tactic(auto)]

ghost use Rattle.std.specs.Prelude.{◌≡◌, ◌+◌, ◌*◌, ◌≤◌, ◌<◌, length, cond, Ok, Err};
ghost use Rattle.stamp.specs.Parts.{list_of};
ghost use Rattle.ledger.specs.Log.{unknowns};
ghost use Rattle.ledger.specs.Record.{is_known};
ghost use Rattle.book_log.specs.Region.{row_long, stamp_long, record_at, records_at};
ghost use Rattle.book_log.specs.Held.{climb, holds_all};
ghost use Rattle.log_edit.specs.Merge.{Fresh, merged};
ghost use Rattle.wire.specs.Head.{count_in};
ghost use Rattle.message.specs.Message.{records_in};
ghost use Rattle.arrivals.specs.Head.{Head, record_no};

use book_log::{ROW, climb_row, first_at_most, is_known, make_row};
use limits::PARTS;
use log_edit::slide_in;
use message::record_at;
use stamp::{Parts, list_of};
use tally::pack;

// The row of record i. The head has n screens and stamp m.
fn row_for(msg: &[u8], i: usize, n: usize, m: Parts) -> [u64; ROW]
    requires head { Head msg.now n (list_of m) }
    requires i_bound { i < count_in msg.now }
    ensures { record_at result ≡ record_no msg.now i }
{
    let Ok(record) = record_at(msg, i, n, m) else {
        return [0u64; ROW];
    };
    make_row(record.origin, record.number, record.label, pack(record.tap))
}

// One pass over the records: how far the numbers of each origin go without a gap from those reached, written over them.
// Gives how many records are not known under a stamp.
fn survey(msg: &[u8], count: usize, n: usize, m: Parts, known: &[u64], reached: &mut [u64]) -> usize
    requires head { Head msg.now n (list_of m) }
    requires msg_value { count_in msg.now ≡ count }
    ensures reached_after { (reached.new ≡ climb reached.old (records_in msg.now))
        × (length reached.new ≡ length reached.old) }
    ensures value { (result ≡ length (unknowns known.now (records_in msg.now))) × (result ≤ count) }
{
    let mut new: usize = 0;
    for i in 0..count {
        let row = row_for(msg, i, n, m);
        climb_row(&row, reached);
        new += usize::from(!is_known(&row, known));
    }
    new
}

// How many records are new under a known stamp: an error where one that m counts is neither known nor there.
pub fn look_at(
    msg: &[u8],
    count: usize,
    n: usize,
    m: Parts,
    known: &[u64; PARTS],
) -> Result<usize, usize>
    requires head { Head msg.now n (list_of m) }
    requires msg_value { count_in msg.now ≡ count }
    requires n_bound { n ≤ stamp_long }
    ensures value { result ≡ cond (holds_all n known.now (list_of m) (records_in msg.now))
        (Ok (length (unknowns known.now (records_in msg.now))))
        (Err (length (unknowns known.now (records_in msg.now)))) }
    ensures few { length (unknowns known.now (records_in msg.now)) ≤ count }
{
    let mut reached = *known;
    let new = survey(msg, count, n, m, known, &mut reached);
    if first_at_most(&list_of(m), &reached, n) {
        Ok(new)
    } else {
        Err(new)
    }
}

// The records that are not known under a stamp, merged into the first rows of the log's region over a gap of as many
// rows behind them: from the last record to the first, so that each row moves at most once for each new record below
// it.
pub fn merge_new(
    r: &mut [u64],
    logged: usize,
    new: usize,
    msg: &[u8],
    count: usize,
    n: usize,
    m: Parts,
    known: &[u64],
)
    requires head { Head msg.now n (list_of m) }
    requires msg_value { count_in msg.now ≡ count }
    requires value { (new ≡ length (unknowns known.now (records_in msg.now)))
        × ((logged + new) * row_long ≤ length r.old) }
    requires fresh { Fresh (unknowns known.now (records_in msg.now)) (records_at logged r.old) }
    ensures { r.new
        ≡ merged (unknowns known.now (records_in msg.now)) logged new r.old }
{
    let mut i = logged;
    let mut gap = new;
    for k in (0..count).rev() {
        let row = row_for(msg, k, n, m);
        if is_known(&row, known) {
            continue;
        }
        i = slide_in(r, i, gap, &row);
        gap -= 1;
    }
}
