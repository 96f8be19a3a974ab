// Rows of the log moved in place: new records merged in from the back, records that may go dropped from the front.
// Kept: rows are written as words at their places; of a slice lent as `&mut [[u64; ROW]]` no clause says how it ends.
#![tactic(auto)]

ghost use Rattle.std.specs.Prelude.{◌≡◌, [], ◌∷◌, ◌++◌, ◌+◌, ◌-◌, ◌*◌, ◌≤◌, T, length, take, drop, replicate};
ghost use Rattle.lists.specs.Order.{rising};
ghost use Rattle.lists.specs.Part.{mid, patch};
ghost use Rattle.ledger.specs.Record.{place};
ghost use Rattle.book_log.specs.Region.{row_long, record_at, records_at};
ghost use Rattle.book_log.specs.Lowest.{goes_by};
ghost use Rattle.book_log.specs.Walk.{row_record};
ghost use Rattle.log_edit.specs.Merge.{Fresh, Parted, Shifted, Slid, merged, Closed};

use book_log::{ROW, goes, rows_of, stands_before};
use limits::PARTS;

// How many of the first i rows do not stand after a row. The rows rise, so the others are the last of them.
fn staying(r: &[u64], i: usize, row: &[u64; ROW]) -> usize
    requires row_long_in_bounds { i * row_long ≤ length r.now }
    requires t { T (rising place (records_at i r.now)) }
    ensures { Parted i row.now r.now result }
{
    rows_of::<ROW>(r, i).partition_point(|other| !stands_before(row, other))
}

// The words from a place up to another moved up.
fn shift_up(r: &mut [u64], from: usize, to: usize, by: usize)
    requires { (from ≤ to) × (to + by ≤ length r.old) }
    ensures { Shifted from to by r.old r.new }
{
    r.copy_within(from..to, from + by);
}

// A row put over the i-th.
fn put_row(r: &mut [u64], i: usize, row: &[u64; ROW])
    requires { i * row_long + row_long ≤ length r.old }
    ensures { r.new ≡ patch (i * row_long) row_long r.old row.now }
{
    let at = i * ROW;
    let e = at + ROW;
    r[at..e].copy_from_slice(row);
}

// Of the first i rows, those that stand after a row moved up over a gap of rows behind them, and the row put below
// them.
// Gives how many rows stay where they are; the gap is one row shorter.
pub fn slide_in(r: &mut [u64], i: usize, gap: usize, row: &[u64; ROW]) -> usize
    requires le_gap { (1 ≤ gap) × ((i + gap) * row_long ≤ length r.old) }
    requires t { T (rising place (records_at i r.old)) }
    ensures { Slid i gap row.now r.old r.new result }
{
    let n = staying(r, i, row);
    shift_up(r, n * ROW, i * ROW, gap * ROW);
    put_row(r, n + (gap - 1), row);
    n
}

// One new record put among the first rows, where one row behind them is free.
pub fn put_one(r: &mut [u64], count: usize, row: &[u64; ROW])
    requires row_long_in_bounds { (count + 1) * row_long ≤ length r.old }
    requires fresh { Fresh (record_at row.now ∷ []) (records_at count r.old) }
    ensures { r.new ≡ merged (record_at row.now ∷ []) count 1 r.old }
{
    slide_in(r, count, 1, row);
}

// Whether the i-th row may go.
fn goes_at(r: &[u64], i: usize, ready: &[u64; PARTS], low: &[u64]) -> bool
    requires { i * row_long + row_long ≤ length r.now }
    ensures { result ≡ goes_by ready.now low.now (row_record r.now (i * row_long)) }
{
    goes(&rows_of::<ROW>(r, i + 1)[i], ready, low)
}

// A row copied over one before it; a row over itself is not touched.
fn move_row(r: &mut [u64], from: usize, to: usize)
    requires { (from * row_long + row_long ≤ length r.old) × (to ≤ from) }
    ensures { r.new ≡ patch (to * row_long) row_long r.old (mid (from * row_long) row_long r.old) }
{
    if to == from {
        return;
    }
    let at = from * ROW;
    let e = at + ROW;
    r.copy_within(at..e, to * ROW);
}

// Zeros from a place up to another.
fn clear(r: &mut [u64], from: usize, to: usize)
    requires { (from ≤ to) × (to ≤ length r.old) }
    ensures { r.new ≡ take from r.old ++ (replicate (to - from) 0 ++ drop to r.old) }
{
    r[from..to].fill(0);
}

// Of the first rows those that may go dropped, the others closed up in their order, and zeros behind them. Gives how
// many stay.
pub fn drop_rows(r: &mut [u64], count: usize, ready: &[u64; PARTS], low: &[u64]) -> usize
    requires { count * row_long ≤ length r.old }
    ensures { Closed ready.now low.now count r.old r.new result }
{
    let mut kept = 0;
    for i in 0..count {
        if goes_at(r, i, ready, low) {
            continue;
        }
        move_row(r, i, kept);
        kept += 1;
    }
    clear(r, kept * ROW, count * ROW);
    kept
}
