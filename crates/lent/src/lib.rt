// The lent book: where each piece stands on the slice, and every way in which a held book is read and changed.
#![tactic(auto)]

ghost use Rattle.std.specs.Prelude.{◌≡◌, not, [], ◌∷◌, ◌+◌, ◌-◌, ◌*◌, ◌≤◌, ◌<◌, ◌==◌, T, length, get_or, position, set};
ghost use Rattle.lists.specs.Order.{rising, insert};
ghost use Rattle.lists.specs.Part.{mid, patch};
ghost use Rattle.limits.specs.Limits.{parts, most, prompt_count, log_room, book_room, count_limit};
ghost use Rattle.stamp.specs.Parts.{list_of};
ghost use Rattle.stamp.specs.Stamp.{merge, replace};
ghost use Rattle.tally.specs.Standing.{CountsFit, among, blank};
ghost use Rattle.tally.specs.Tap.{fields, tap_of};
ghost use Rattle.ledger.specs.Log.{gathered, remaining};
ghost use Rattle.book_log.specs.Lowest.{lowest_from};
ghost use Rattle.book_log.specs.Region.{row_long, record_at, records_at, records_of};
ghost use Rattle.log_edit.specs.Merge.{Fresh, merged, stayers, dropped};
ghost use Rattle.taps.specs.Region.{taps_at, inserted_at};
ghost use Rattle.prompts.specs.Region.{prompt_words, standings_at, standing_words, noted_at};
ghost use Rattle.meaning.specs.Book.{row, known, ready, standing_at};
ghost use Rattle.lent.specs.Held.{Held};
ghost use Rattle.lent.specs.Rows.{no_record};
ghost use Rattle.lent.specs.Changes.{Insertable};
ghost use Rattle.lent.specs.With.{with_table, with_value, with_log, with_counted, with_prompts};
ghost use Rattle.lent.specs.Words.{Logged, Table, Value, Log, Counted, Prompts, size, from, book_long, piece};
ghost use Rattle.lent.specs.Words.{book_of, words_of};

use book_log::{ROW, find_body, lowest, rows_of};
use limits::{BOOK_ROOM, LOG_ROOM, MOST, PARTS};
use log_edit::{drop_rows, put_one};
use prompts::{PROMPT_WORDS, note, standing_at};
use stamp::{Parts, list_of, merge_into, parts_at};
use tally::Standing;
use taps::{has, insert_word};

// Screen i, and N.
pub const SCREEN: usize = 0;

pub const SCREENS: usize = SCREEN + 1;

// How many records the log has, and how many taps are counted.
pub const LOGGED: usize = SCREENS + 1;

pub const TAPS: usize = LOGGED + 1;

// The table, a row for each screen.
pub const TABLE: usize = TAPS + 1;

// The value stamp.
pub const VALUE: usize = TABLE + MOST as usize * PARTS;

pub const LOG: usize = VALUE + PARTS;

// The counted taps.
pub const COUNTED: usize = LOG + LOG_ROOM as usize * ROW;

// The prompts' standings.
pub const PROMPTS: usize = COUNTED + BOOK_ROOM as usize;

// The whole book's length.
pub const BOOK: usize = PROMPTS + PROMPT_WORDS;

// The words from a up to e.
fn part(b: &[u64], a: usize, e: usize) -> &[u64]
    requires { (a ≤ e) × (e ≤ length b.now) }
    ensures { result.now ≡ mid a (e - a) b.now }
{
    &b[a..e]
}

// The words of each piece, of a slice of the one length, whatever it holds.
pub fn table_words(b: &[u64]) -> &[u64]
    requires { length b.now ≡ book_long }
    ensures { (result.now ≡ piece Table b.now) × (length result.now ≡ size Table) }
{
    part(b, TABLE, VALUE)
}

pub fn value_words(b: &[u64]) -> &[u64; PARTS]
    requires { length b.now ≡ book_long }
    ensures { result.now ≡ piece Value b.now }
{
    &rows_of::<PARTS>(part(b, VALUE, LOG), 1)[0]
}

pub fn log_words(b: &[u64]) -> &[u64]
    requires { length b.now ≡ book_long }
    ensures { (result.now ≡ piece Log b.now) × (length result.now ≡ size Log) }
{
    part(b, LOG, COUNTED)
}

pub fn counted_words(b: &[u64]) -> &[u64]
    requires { length b.now ≡ book_long }
    ensures { (result.now ≡ piece Counted b.now) × (length result.now ≡ size Counted) }
{
    part(b, COUNTED, PROMPTS)
}

pub fn prompt_words(b: &[u64]) -> &[u64]
    requires { length b.now ≡ book_long }
    ensures { (result.now ≡ piece Prompts b.now) × (length result.now ≡ size Prompts) }
{
    part(b, PROMPTS, BOOK)
}

// The screen's number.
pub fn screen_of(b: &[u64]) -> u64
    requires { Held b.now }
    ensures { result ≡ (book_of b.now).me }
{
    b[SCREEN]
}

// How many screens the house has.
pub fn screens_of(b: &[u64]) -> u64
    requires { Held b.now }
    ensures { (result ≡ (book_of b.now).screens) × (result ≤ most) }
{
    b[SCREENS]
}

// How many records the log has.
pub fn logged_of(b: &[u64]) -> usize
    requires { Held b.now }
    ensures { (result ≡ length (book_of b.now).log) × (result ≤ log_room) × (result < count_limit) }
{
    b[LOGGED] as usize
}

// How many taps are counted.
fn taps_of(b: &[u64]) -> usize
    requires { Held b.now }
    ensures { (result ≡ length (book_of b.now).counted) × (result ≤ book_room) }
{
    b[TAPS] as usize
}

// Row j of the table.
pub fn row_of(b: &[u64], j: usize) -> [u64; PARTS]
    requires held { Held b.now }
    requires j_bound { j < (book_of b.now).screens }
    ensures { (result ≡ row (book_of b.now) j) × (length result ≡ parts) }
{
    list_of(parts_at(b, TABLE + j * PARTS))
}

// The known stamp.
pub fn known_of(b: &[u64]) -> [u64; PARTS]
    requires held { Held b.now }
    requires b_bound { (book_of b.now).me < (book_of b.now).screens }
    ensures { (result ≡ known (book_of b.now)) × (length result ≡ parts) }
{
    row_of(b, screen_of(b) as usize)
}

// The ready stamp.
pub fn ready_of(b: &[u64]) -> [u64; PARTS]
    requires held { Held b.now }
    requires b_bound { (book_of b.now).me < (book_of b.now).screens }
    ensures { (result ≡ ready (book_of b.now)) × (length result ≡ parts) }
{
    known_of(b)
}

// The value stamp.
pub fn value_of(b: &[u64]) -> Parts
    requires { Held b.now }
    ensures { list_of result ≡ (book_of b.now).value }
{
    parts_at(b, VALUE)
}

// The log's rows, one for each record.
pub fn log_rows(b: &[u64]) -> &[[u64; ROW]]
    requires { Held b.now }
    ensures { (records_of result.now ≡ (book_of b.now).log) × (length result.now ≡ length (book_of b.now).log) }
{
    rows_of::<ROW>(log_words(b), logged_of(b))
}

// The row of the log's i-th record.
pub fn log_row(b: &[u64], i: usize) -> [u64; ROW]
    requires held { Held b.now }
    requires i_in_bounds { i < length (book_of b.now).log }
    ensures { record_at result ≡ get_or (book_of b.now).log i no_record }
{
    log_rows(b)[i]
}

// Where the log's first record with body w stands.
pub fn find_logged(b: &[u64], w: u64) -> Option<usize>
    requires { Held b.now }
    ensures { result ≡ position (λ r. r.body == w) (book_of b.now).log }
{
    find_body(log_rows(b), w)
}

// Whether the tap of w is counted.
pub fn is_counted(b: &[u64], w: u64) -> bool
    requires { Held b.now }
    ensures { result ≡ among (book_of b.now).counted (tap_of w) }
{
    has(&counted_words(b)[..taps_of(b)], w)
}

// The standing of a prompt.
pub fn standing_of(b: &[u64], prompt: u64) -> Standing
    requires held { Held b.now }
    requires prompt_lt_prompt_count { prompt < prompt_count }
    ensures { result ≡ standing_at (book_of b.now) prompt }
{
    standing_at(prompt_words(b), prompt)
}

// The known stamp met with each row of the table.
fn low_of(b: &[u64]) -> [u64; PARTS]
    requires held { Held b.now }
    requires b_bound { (book_of b.now).me < (book_of b.now).screens }
    ensures { result ≡ lowest_from (known (book_of b.now)) (book_of b.now).table }
{
    let rows = rows_of::<PARTS>(table_words(b), screens_of(b) as usize);
    lowest(&known_of(b), rows)
}

// A stamp merged into the one that stands from a up to e. Kept, as the others at any bounds below: a function beside
// `merge_value`, so that its proof knows no number of the layout.
fn merge_at(b: &mut [u64], a: usize, e: usize, s: &[u64])
    requires { (a ≤ e) × (e ≤ length b.old) × (length s.now ≡ e - a) }
    ensures { b.new
        ≡ patch a (e - a) b.old (merge (mid a (e - a) b.old) s.now) }
{
    merge_into(&mut b[a..e], s);
}

// A stamp merged into the value stamp.
pub fn merge_value(b: &mut [u64], s: &[u64; PARTS])
    requires { Held b.old }
    ensures { b.new
        ≡ words_of (with_value (merge s.now (book_of b.old).value) (book_of b.old)) }
{
    merge_at(b, VALUE, LOG, s);
}

// A stamp merged into row j of the table.
pub fn raise_row(b: &mut [u64], j: usize, m: &[u64])
    requires held { Held b.old }
    requires j_bound { (j < (book_of b.old).screens) × (length m.now ≡ parts) }
    ensures { b.new
        ≡ words_of (with_table (set (book_of b.old).table j
        (merge (row (book_of b.old) j) m.now)) (book_of b.old)) }
{
    let at = TABLE + j * PARTS;
    merge_at(b, at, at + PARTS, m);
}

// The known stamp's own part replaced.
pub fn raise_own(b: &mut [u64], number: u64)
    requires held { Held b.old }
    requires b_bound { (book_of b.old).me < (book_of b.old).screens }
    ensures { b.new
        ≡ words_of (with_table (set (book_of b.old).table (book_of b.old).me
        (replace (known (book_of b.old)) (book_of b.old).me number))
        (book_of b.old)) }
{
    let i = screen_of(b) as usize;
    b[TABLE + i * PARTS + i] = number;
}

// One more tap noted at its prompt, the prompts being the words from a up to e.
fn note_at(b: &mut [u64], a: usize, e: usize, w: u64)
    requires a_le_e { (a ≤ e) × (e ≤ length b.old) × (e - a ≡ prompt_words) }
    requires counts_fit { CountsFit (get_or (standings_at (mid a (e - a) b.old)) (tap_of w).prompt blank) }
    ensures { b.new
        ≡ patch a (e - a) b.old
        (standing_words (noted_at (tap_of w) (standings_at (mid a (e - a) b.old)))) }
{
    note(&mut b[a..e], w);
}

// The tap of w noted at its prompt.
pub fn note_tap(b: &mut [u64], w: u64)
    requires held { Held b.old }
    requires counts_fit { CountsFit (standing_at (book_of b.old) (tap_of w).prompt) }
    ensures { b.new
        ≡ words_of (with_prompts (noted_at (tap_of w) (book_of b.old).prompts) (book_of b.old)) }
{
    note_at(b, PROMPTS, BOOK, w);
}

// A new word put in its place among the first n of those from a up to e.
fn insert_at(b: &mut [u64], a: usize, e: usize, n: usize, w: u64)
    requires a_le_e { (a ≤ e) × (e ≤ length b.old) × (n < e - a) }
    requires t { T (rising fields (taps_at n (mid a (e - a) b.old))) }
    requires t_2 { T (not (among (taps_at n (mid a (e - a) b.old)) (tap_of w))) }
    ensures { b.new
        ≡ patch a (e - a) b.old (inserted_at n w (mid a (e - a) b.old)) }
{
    insert_word(&mut b[a..e], n, w);
}

// The tap of w put in its place among the counted ones.
pub fn insert_tap(b: &mut [u64], w: u64)
    requires held { Held b.old }
    requires insertable { Insertable w (book_of b.old) }
    ensures { b.new
        ≡ words_of (with_counted (insert fields (tap_of w) (book_of b.old).counted) (book_of b.old)) }
{
    let n = taps_of(b);
    insert_at(b, COUNTED, PROMPTS, n, w);
    b[TAPS] = (n + 1) as u64;
}

// Where the log begins, and where it ends: for who puts a message's records into it.
pub fn log_start() -> usize
    ensures { result ≡ from Log }
{
    LOG
}

pub fn log_end() -> usize
    ensures { result ≡ from Log + size Log }
{
    COUNTED
}

// The number of the log's records.
pub fn set_logged(b: &mut [u64], n: usize)
    requires { length b.old ≡ book_long }
    ensures { b.new ≡ set b.old (from Logged) n }
{
    b[LOGGED] = n as u64;
}

// A row put among the first n rows of the words from a up to e.
fn put_at(b: &mut [u64], a: usize, e: usize, n: usize, row: &[u64; ROW])
    requires a_le_e { (a ≤ e) × (e ≤ length b.old) × ((n + 1) * row_long ≤ e - a) }
    requires fresh { Fresh (record_at row.now ∷ []) (records_at n (mid a (e - a) b.old)) }
    ensures { b.new
        ≡ patch a (e - a) b.old
        (merged (record_at row.now ∷ []) n 1 (mid a (e - a) b.old)) }
{
    put_one(&mut b[a..e], n, row);
}

// A row's record put into the log.
pub fn put_record(b: &mut [u64], row: &[u64; ROW])
    requires held { Held b.old }
    requires fresh { Fresh (record_at row.now ∷ []) (book_of b.old).log }
    requires b_len_bound { length (book_of b.old).log < log_room }
    ensures { b.new
        ≡ words_of (with_log (gathered (record_at row.now ∷ []) (book_of b.old).log)
        (book_of b.old)) }
{
    let n = logged_of(b);
    put_at(b, LOG, COUNTED, n, row);
    set_logged(b, n + 1);
}

// Of the first rows of the words from a up to e, those that may go dropped and the rest closed up. Gives how many stay.
fn drop_at(
    b: &mut [u64],
    a: usize,
    e: usize,
    count: usize,
    s: &[u64; PARTS],
    low: &[u64; PARTS],
) -> usize
    requires { (a ≤ e) × (e ≤ length b.old) × (count * row_long ≤ e - a) }
    ensures b_after { b.new
        ≡ patch a (e - a) b.old
        (dropped s.now low.now count (mid a (e - a) b.old)) }
    ensures value { result ≡ length
        (stayers s.now low.now (records_at count (mid a (e - a) b.old))) }
{
    drop_rows(&mut b[a..e], count, s, low)
}

// What is applied and known everywhere dropped from the log.
pub fn drop_log(b: &mut [u64])
    requires held { Held b.old }
    requires b_bound { (book_of b.old).me < (book_of b.old).screens }
    ensures { b.new
        ≡ words_of (with_log (remaining (ready (book_of b.old)) (book_of b.old).table
        (book_of b.old).log) (book_of b.old)) }
{
    let ready = ready_of(b);
    let low = low_of(b);
    let count = logged_of(b);
    let n = drop_at(b, LOG, COUNTED, count, &ready, &low);
    set_logged(b, n);
}
