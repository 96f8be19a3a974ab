// The prompts in their region of a book: for each the showing, accepts and declines.
#![tactic(auto)]

ghost use Rattle.std.specs.Prelude.{◌≡◌, [], ◌<◌, length, get_or, set};
ghost use Rattle.limits.specs.Limits.{prompt_count, count_limit};
ghost use Rattle.tally.specs.Standing.{CountsFit, blank, afresh, same_counts};
ghost use Rattle.tally.specs.Tap.{tap_of};
ghost use Rattle.taps.specs.Region.{word_taps};
ghost use Rattle.prompts.specs.Region.{prompt_words, standings_at, standing_words, noted_at};

use limits::PROMPT_COUNT;
use tally::{Standing, noted, unpack};

// How many words a standing takes, and all of them.
const STANDING_LONG: usize = 3;

pub const PROMPT_WORDS: usize = PROMPT_COUNT as usize * STANDING_LONG;

pub fn standing_at(r: &[u64], p: u64) -> Standing
    requires r_len { length r.now ≡ prompt_words }
    requires p_lt_prompt_count { p < prompt_count }
    ensures { result ≡ get_or (standings_at r.now) p blank }
{
    let (standings, _) = r.as_chunks::<STANDING_LONG>();
    let [showing, accepts, declines] = standings[p as usize];
    Standing {
        showing,
        accepts,
        declines,
    }
}

fn put_standing(r: &mut [u64], p: u64, s: Standing)
    requires r_len { length r.old ≡ prompt_words }
    requires p_lt_prompt_count { p < prompt_count }
    ensures { r.new ≡ standing_words (set (standings_at r.old) p s) }
{
    let at = p as usize * STANDING_LONG;
    r[at..at + STANDING_LONG].copy_from_slice(&[s.showing, s.accepts, s.declines]);
}

// Notes one more tap at its prompt.
pub fn note(r: &mut [u64], w: u64)
    requires r_len { length r.old ≡ prompt_words }
    requires counts_fit { CountsFit (get_or (standings_at r.old) (tap_of w).prompt blank) }
    ensures r_after { r.new ≡ standing_words (noted_at (tap_of w) (standings_at r.old)) }
    ensures r_len_2 { length r.new ≡ prompt_words }
{
    let t = unpack(w);
    let s = standing_at(r, t.prompt);
    put_standing(r, t.prompt, noted(t, s));
}

// Notes some taps in a table that holds none.
fn tabulate(table: &mut [u64], taps: &[u64])
    requires table_len { length table.old ≡ prompt_words }
    requires table_value { standings_at table.old ≡ afresh [] }
    requires few { length taps.now < count_limit }
    ensures table_after { standings_at table.new ≡ afresh (word_taps taps.now) }
    ensures table_len_2 { length table.new ≡ prompt_words }
{
    for w in taps {
        note(table, *w);
    }
}

// Whether the standings are those of the taps, counted afresh.
pub fn counts_follow(r: &[u64], taps: &[u64]) -> bool
    requires r_len { length r.now ≡ prompt_words }
    requires few { length taps.now < count_limit }
    ensures { result ≡ same_counts (standings_at r.now) (afresh (word_taps taps.now)) }
{
    let mut table = [0u64; PROMPT_WORDS];
    tabulate(&mut table, taps);
    r == &table[..]
}
