// Whether a lent slice is sound: its shape, then each clause on the parts of the book, one pass over a part for each
// test.
#![tactic(auto)]

ghost use Rattle.std.specs.Prelude.{◌≡◌, not, ◌||◌, ◌+◌, ◌≤◌, ◌<◌, T, leb, ltb, length};
ghost use Rattle.lists.specs.Tests.{all, every};
ghost use Rattle.limits.specs.Limits.{parts, word, count_limit};
ghost use Rattle.stamp.specs.Stamp.{at_most, total, stamp_fits};
ghost use Rattle.tally.specs.Body.{body_fits};
ghost use Rattle.ledger.specs.Log.{waiting_in};
ghost use Rattle.ledger.specs.Record.{is_applied};
ghost use Rattle.book_log.specs.Region.{record_at, records_of};
ghost use Rattle.taps.specs.Region.{word_taps};
ghost use Rattle.prompts.specs.Region.{prompt_words, standings_at};
ghost use Rattle.meaning.specs.Book.{counted_in};
ghost use Rattle.lent.specs.Words.{book_long, in_shape, lawful};
ghost use Rattle.soundness.specs.Clauses.{fit_rules, within_rules, log_rules, counted_rules, region_rules, piece_rules};
ghost use Rattle.soundness.specs.SoundLaws.{Numbers, number_rules, zero_rules, word_rules};

use book_log::{
    BODY, ROW, all_held, count_waiting, is_applied, lowest, rising_rows, rows_of, rows_sound,
};
use ledger::in_range;
use lent::{
    BOOK, LOGGED, SCREEN, SCREENS, TAPS, counted_words, log_words, prompt_words, table_words,
    value_words,
};
use limits::{PARTS, book_room, log_room, most_screens};
use prompts::counts_follow;
use stamp::{at_most, fits, sum, zero_from};
use tally::unpack;
use taps::{all_fit, has, rising_words};

// What stands behind the numbers of a slice: the table's rows, the value stamp, the log's rows, the counted taps and
// the prompts.
#[derive(Clone, Copy)]
struct Pieces<'a> {
    table: &'a [[u64; PARTS]],
    value: &'a [u64; PARTS],
    log: &'a [[u64; ROW]],
    counted: &'a [u64],
    prompts: &'a [u64],
}

// The numbers in front within their places.
#[tactic(auto, using(crate::proofs::Shape::numbers_read), unfolding(lent::specs::Words::book_long))]
fn numbers_fit(b: &[u64]) -> bool
    requires { length b.now ≡ book_long }
    ensures { result ≡ all (number_rules b.now) }
{
    b[SCREENS] <= most_screens() && b[LOGGED] <= log_room() && b[TAPS] <= book_room()
}

// The unused places zero, the numbers being within theirs.
#[tactic(auto, using(crate::proofs::Shape::zeros_read), unfolding(lent::specs::Words::book_long))]
fn zeros_behind(b: &[u64]) -> bool
    requires b_len { length b.now ≡ book_long }
    requires t { T (all (number_rules b.now)) }
    ensures { result ≡ all (zero_rules b.now) }
{
    zero_from(table_words(b), b[SCREENS] as usize * PARTS)
        && zero_from(log_words(b), b[LOGGED] as usize * ROW)
        && zero_from(counted_words(b), b[TAPS] as usize)
}

// The one length, numbers within their places, unused places zero.
fn in_shape(b: &[u64]) -> bool
    ensures { result ≡ in_shape b.now }
{
    if b.len() != BOOK {
        return false;
    }
    numbers_fit(b) && zeros_behind(b)
}

// Whether each of the table's rows is a stamp of a house of n screens.
fn rows_fit(table: &[[u64; PARTS]], n: usize) -> bool
    ensures { result ≡ every (stamp_fits n) table.now }
{
    table.iter().all(|row| fits(row, n))
}

// Whether none of the table's rows exceeds the known stamp.
fn rows_within(table: &[[u64; PARTS]], known: &[u64; PARTS]) -> bool
    ensures { result ≡ every (λ s. at_most s known.now) table.now }
{
    table.iter().all(|row| at_most(row, known))
}

// Whether the rows and the value stamp are stamps of a house of as many screens as there are rows.
#[tactic(auto, unfolding(crate::specs::Clauses::fit_rules))]
fn stamps_fit(table: &[[u64; PARTS]], value: &[u64; PARTS]) -> bool
    ensures { result ≡ all (fit_rules (length table.now) table.now value.now) }
{
    rows_fit(table, table.len()) && fits(value, table.len())
}

// Whether the known stamp is within the book's room, and no row and not the value stamp exceeds it.
#[tactic(auto, unfolding(crate::specs::Clauses::within_rules))]
fn stamps_within(table: &[[u64; PARTS]], value: &[u64; PARTS], known: &[u64; PARTS]) -> bool
    requires { T (every (λ x. ltb x word) known.now) }
    ensures { result ≡ all (within_rules known.now table.now value.now) }
{
    sum(known) <= book_room() && rows_within(table, known) && at_most(value, known)
}

fn body_fits(row: &[u64; ROW]) -> bool
    ensures { result ≡ body_fits (record_at row.now).body }
{
    tally::fits(unpack(row[BODY]))
}

// Whether each record's body keeps the rule of bodies.
fn bodies_fit(log: &[[u64; ROW]]) -> bool
    ensures { result ≡ every (λ row. body_fits (record_at row).body) log.now }
{
    log.iter().all(|row| body_fits(row))
}

// What soundness asks of the log alone: `low` is the lowest stamp of the table.
#[tactic(auto, using(crate::proofs::Turn::every_rows), unfolding(crate::specs::Clauses::log_rules))]
fn log_sound(
    log: &[[u64; ROW]],
    n: usize,
    known: &[u64; PARTS],
    ready: &[u64; PARTS],
    low: &[u64; PARTS],
    value: &[u64; PARTS],
) -> bool
    requires { n ≤ parts }
    ensures { result ≡ all (log_rules n known.now ready.now low.now value.now (records_of log.now)) }
{
    rising_rows(log)
        && rows_sound(log, n, known, ready, low, value)
        && bodies_fit(log)
        && all_held(log, n, known, low)
}

// Whether a record's tap is counted if the record is applied.
#[tactic(auto, using(tally::proofs::BodyLaws::taps_tap), unfolding(meaning::specs::Book::counted_in))]
fn row_counted(row: &[u64; ROW], ready: &[u64; PARTS], counted: &[u64]) -> bool
    ensures { result ≡ (not (is_applied ready.now (record_at row.now))
        || counted_in (word_taps counted.now) (record_at row.now)) }
{
    !is_applied(row, ready) || has(counted, row[BODY])
}

// Whether each applied log record's tap is counted.
fn rows_counted(log: &[[u64; ROW]], ready: &[u64; PARTS], counted: &[u64]) -> bool
    ensures { result ≡ every (λ row. not (is_applied ready.now (record_at row))
        || counted_in (word_taps counted.now) (record_at row)) log.now }
{
    log.iter().all(|row| row_counted(row, ready, counted))
}

// Whether the counted taps and the waiting records together are at most the known records.
#[tactic(auto, using(crate::proofs::Turn::taps_long))]
fn few_enough(
    counted: &[u64],
    log: &[[u64; ROW]],
    known: &[u64; PARTS],
    ready: &[u64; PARTS],
) -> bool
    requires t { T (every (λ x. ltb x word) known.now) }
    requires few { (length counted.now < count_limit) × (length log.now < count_limit) }
    ensures { result
        ≡ leb (length (word_taps counted.now) + length (waiting_in known.now ready.now (records_of log.now)))
        (total known.now) }
{
    let waiting = count_waiting(log, known, ready);
    (counted.len() + waiting) as u64 <= sum(known)
}

// What soundness asks of the counted taps.
#[tactic(auto, using(crate::proofs::Turn::every_rows), unfolding(crate::specs::Clauses::counted_rules))]
fn counted_sound(
    counted: &[u64],
    log: &[[u64; ROW]],
    known: &[u64; PARTS],
    ready: &[u64; PARTS],
) -> bool
    requires t { T (every (λ x. ltb x word) known.now) }
    requires few { (length counted.now < count_limit) × (length log.now < count_limit) }
    ensures { result ≡ all (counted_rules known.now ready.now (records_of log.now) (word_taps counted.now)) }
{
    rising_words(counted)
        && all_fit(counted)
        && rows_counted(log, ready, counted)
        && few_enough(counted, log, known, ready)
}

// What is left once the stamps fit.
#[tactic(auto, unfolding(crate::specs::Clauses::region_rules))]
fn regions_sound(p: &Pieces<'_>, known: &[u64; PARTS], ready: &[u64; PARTS]) -> bool
    requires t { T (every (λ x. ltb x word) known.now) }
    requires few { (length p.now.table.now ≤ parts) × (length p.now.log.now < count_limit)
        × (length p.now.counted.now < count_limit) × (length p.now.prompts.now ≡ prompt_words) }
    ensures { result
        ≡ all (region_rules (length p.now.table.now) known.now ready.now p.now.table.now p.now.value.now
        (records_of p.now.log.now) (word_taps p.now.counted.now) (standings_at p.now.prompts.now)) }
{
    if !stamps_within(p.table, p.value, known) {
        return false;
    }
    let low = lowest(known, p.table);
    log_sound(p.log, p.table.len(), known, ready, &low, p.value)
        && counted_sound(p.counted, p.log, known, ready)
        && counts_follow(p.prompts, p.counted)
}

// The clauses on the pieces: row i of the table is the known stamp, and today the ready stamp.
#[tactic(auto, unfolding(crate::specs::Clauses::piece_rules))]
fn pieces_sound(p: &Pieces<'_>, i: usize) -> bool
    requires i_in_bounds { (i < length p.now.table.now) × (length p.now.table.now ≤ parts) }
    requires few { (length p.now.log.now < count_limit) × (length p.now.counted.now < count_limit)
        × (length p.now.prompts.now ≡ prompt_words) }
    ensures { result ≡ all (piece_rules i p.now.table.now p.now.value.now (records_of p.now.log.now)
        (word_taps p.now.counted.now) (standings_at p.now.prompts.now)) }
{
    stamps_fit(p.table, p.value) && regions_sound(p, &p.table[i], &p.table[i])
}

// The same on a slice of the one length, its numbers within their places.
fn words_sound(b: &[u64]) -> bool
    requires b_len { length b.now ≡ book_long }
    requires numbers { Numbers b.now }
    ensures { result ≡ all (word_rules b.now) }
{
    let taps = b[TAPS] as usize;
    let p = Pieces {
        table: rows_of::<PARTS>(table_words(b), b[SCREENS] as usize),
        value: value_words(b),
        log: rows_of::<ROW>(log_words(b), b[LOGGED] as usize),
        counted: &counted_words(b)[..taps],
        prompts: prompt_words(b),
    };
    pieces_sound(&p, b[SCREEN] as usize)
}

// Whether the slice, of any length, holds a sound book.
pub fn sound(b: &[u64]) -> bool
    ensures { result ≡ lawful b.now }
{
    if !in_shape(b) {
        return false;
    }
    in_range(b[SCREEN], b[SCREENS]) && words_sound(b)
}
