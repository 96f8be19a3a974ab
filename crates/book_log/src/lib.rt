// The log on a lent slice: rows of eleven words, by origin, then number. Knows nothing of what a body means.
#![tactic(auto)]

ghost use Rattle.std.specs.Prelude.{◌≡◌, true, ◌*◌, ◌≤◌, ◌<◌, T, leb, eqb, ◌==◌, length, position};
ghost use Rattle.lists.specs.Order.{key_before, rising};
ghost use Rattle.lists.specs.Rows.{rows};
ghost use Rattle.lists.specs.Tests.{all_below, every};
ghost use Rattle.stamp.specs.Parts.{list_of};
ghost use Rattle.stamp.specs.Stamp.{part};
ghost use Rattle.ledger.specs.Log.{waiting_in};
ghost use Rattle.ledger.specs.Record.{place, is_known, is_applied, is_waiting, record_fits};
ghost use Rattle.book_log.specs.Region.{stamp_long, record_at, records_of};
ghost use Rattle.book_log.specs.Lowest.{meet, lowest_from, goes_by};
ghost use Rattle.book_log.specs.RowSound.{row_sound};
ghost use Rattle.book_log.specs.Held.{raised, climbed, climb, holds_all};

use ledger::label_fits;
use limits::PARTS;
use stamp::{Parts, at_most, put_parts};

// Where the words of a row stand; the label is from LABEL to BODY.
pub const ORIGIN: usize = 0;

pub const NUMBER: usize = ORIGIN + 1;

pub const LABEL: usize = NUMBER + 1;

pub const BODY: usize = LABEL + PARTS;

// A row's words.
pub const ROW: usize = BODY + 1;

// The first rows of N words, each as an array.
pub fn rows_of<const N: usize>(words: &[u64], count: usize) -> &[[u64; N]]
    requires { (0 < N) × (count * N ≤ length words.now) }
    ensures { (result.now ≡ rows N count words.now) × (length result.now ≡ count) }
{
    &words.as_chunks::<N>().0[..count]
}

// Soundness asks this of each row up to five times, so the stamp's part is looked up here and not by a call.
#[tactic(auto, unfolding(ledger::specs::Record::is_known, ledger::specs::Record::knows))]
pub fn is_known(row: &[u64; ROW], s: &[u64]) -> bool
    ensures { result ≡ is_known s.now (record_at row.now) }
{
    let origin = row[ORIGIN] as usize;
    if origin < s.len() {
        row[NUMBER] <= s[origin]
    } else {
        row[NUMBER] == 0
    }
}

#[tactic(auto, unfolding(ledger::specs::Record::is_applied))]
pub fn is_applied(row: &[u64; ROW], s: &[u64; PARTS]) -> bool
    ensures { result ≡ is_applied s.now (record_at row.now) }
{
    is_known(row, s) && at_most(&row[LABEL..BODY], s)
}

// Known, and not applied under the ready stamp.
#[tactic(auto, unfolding(ledger::specs::Record::is_waiting))]
fn is_waiting(row: &[u64; ROW], known: &[u64], ready: &[u64; PARTS]) -> bool
    ensures { result ≡ is_waiting known.now ready.now (record_at row.now) }
{
    is_known(row, known) && !is_applied(row, ready)
}

// Whether the record is applied under the ready stamp and known everywhere: `low` is the table's lowest stamp.
#[tactic(auto, unfolding(crate::specs::Lowest::goes_by, ledger::specs::Record::is_known, ledger::specs::Record::knows))]
pub fn goes(row: &[u64; ROW], ready: &[u64; PARTS], low: &[u64]) -> bool
    ensures { result ≡ goes_by ready.now low.now (record_at row.now) }
{
    is_applied(row, ready) && is_known(row, low)
}

#[tactic(auto, unfolding(ledger::specs::Record::record_fits))]
fn row_fits(row: &[u64; ROW], n: usize) -> bool
    ensures { result ≡ record_fits (λ _. true) n (record_at row.now) }
{
    label_fits(row[ORIGIN], row[NUMBER], &row[LABEL..BODY], n)
}

// What soundness asks of a record alone. Once it fits, the value stamp covers its stamp exactly when the record is
// applied under it.
#[tactic(auto, using(crate::proofs::Rows::value_covers), unfolding(crate::specs::RowSound::row_sound))]
fn row_sound(
    row: &[u64; ROW],
    n: usize,
    known: &[u64],
    ready: &[u64; PARTS],
    low: &[u64],
    value: &[u64; PARTS],
) -> bool
    ensures { result ≡ row_sound n known.now ready.now low.now value.now (record_at row.now) }
{
    is_known(row, known)
        && row_fits(row, n)
        && !goes(row, ready, low)
        && (!is_applied(row, ready) || is_applied(row, value))
}

// The smaller in each part, written over a.
fn meet_into(a: &mut [u64; PARTS], b: &[u64; PARTS])
    ensures { a.new ≡ meet a.old b.now }
{
    for (i, x) in a.iter_mut().enumerate() {
        *x = (*x).min(b[i]);
    }
}

// A stamp met with each row of a table.
#[tactic(auto, unfolding(crate::specs::Lowest::lowest_from))]
pub fn lowest(s: &[u64; PARTS], table: &[[u64; PARTS]]) -> [u64; PARTS]
    ensures { result ≡ lowest_from s.now table.now }
{
    let mut low = *s;
    for row in table {
        meet_into(&mut low, row);
    }
    low
}

// What soundness asks of each record alone.
pub fn rows_sound(
    rows: &[[u64; ROW]],
    n: usize,
    known: &[u64],
    ready: &[u64; PARTS],
    low: &[u64],
    value: &[u64; PARTS],
) -> bool
    ensures { result ≡ every (λ row. row_sound n known.now ready.now low.now value.now (record_at row)) rows.now }
{
    rows.iter()
        .all(|row| row_sound(row, n, known, ready, low, value))
}

// Whether row a stands before row b: by origin, then number.
pub fn stands_before(a: &[u64; ROW], b: &[u64; ROW]) -> bool
    ensures { result ≡ key_before (place (record_at a.now)) (place (record_at b.now)) }
{
    (a[ORIGIN], a[NUMBER]) < (b[ORIGIN], b[NUMBER])
}

// Whether the rows rise strictly: neighbours suffice.
pub fn rising_rows(rows: &[[u64; ROW]]) -> bool
    ensures { result ≡ rising place (records_of rows.now) }
{
    rows.is_sorted_by(|a, b| stands_before(a, b))
}

// q if it is the next number, else what was reached.
fn raise(reached: u64, q: u64) -> u64
    ensures { result ≡ raised reached q }
{
    if q.checked_sub(reached) == Some(1) {
        q
    } else {
        reached
    }
}

// An origin past what is lent raises none.
pub fn climb_row(row: &[u64; ROW], reached: &mut [u64])
    ensures { (reached.new ≡ climbed reached.old (record_at row.now)) × (length reached.new ≡ length reached.old) }
{
    let origin = row[ORIGIN] as usize;
    if origin < reached.len() {
        reached[origin] = raise(reached[origin], row[NUMBER]);
    }
}

// How far the numbers of each origin go without a gap from those reached, written over them.
#[tactic(auto, unfolding(crate::specs::Held::climb))]
fn climb_rows(rows: &[[u64; ROW]], reached: &mut [u64; PARTS])
    ensures { reached.new ≡ climb reached.old (records_of rows.now) }
{
    for row in rows {
        climb_row(row, reached);
    }
}

// Whether the first n parts of a are at most those of b.
pub fn first_at_most(a: &[u64], b: &[u64], n: usize) -> bool
    requires { (n ≤ length a.now) × (n ≤ length b.now) }
    ensures { result ≡ all_below n (λ k. leb (part a.now k) (part b.now k)) }
{
    for k in (0..n).rev() {
        if b[k] < a[k] {
            return false;
        }
    }
    true
}

// Whether each number up to the known part is in the log or at most the lowest part, for the first n origins.
pub fn all_held(rows: &[[u64; ROW]], n: usize, known: &[u64; PARTS], low: &[u64; PARTS]) -> bool
    requires rising_log { T (rising place (records_of rows.now)) }
    requires n_bound { n ≤ stamp_long }
    ensures { result ≡ holds_all n low.now known.now (records_of rows.now) }
{
    let mut reached = *low;
    climb_rows(rows, &mut reached);
    first_at_most(known, &reached, n)
}

// How many records wait.
pub fn count_waiting(rows: &[[u64; ROW]], known: &[u64], ready: &[u64; PARTS]) -> usize
    ensures { (result ≡ length (waiting_in known.now ready.now (records_of rows.now)))
        × (result ≤ length rows.now) }
{
    rows.iter()
        .filter(|row| is_waiting(row, known, ready))
        .count()
}

// The row of a record.
#[tactic(auto, unfolding(lists::specs::Part::patch, stamp::specs::Parts::list_of))]
pub fn make_row(origin: u64, number: u64, label: Parts, body: u64) -> [u64; ROW]
    ensures { record_at result ≡ record { origin = origin; number = number; label = list_of label; body = body } }
{
    let mut row = [0u64; ROW];
    row[ORIGIN] = origin;
    row[NUMBER] = number;
    put_parts(&mut row, LABEL, label);
    row[BODY] = body;
    row
}

// Where the first record with body w stands.
pub fn find_body(rows: &[[u64; ROW]], w: u64) -> Option<usize>
    ensures { result ≡ position (λ row. (record_at row).body == w) rows.now }
{
    rows.iter().position(|row| row[BODY] == w)
}
