// The counted taps in their region of a book: one word for each, the first n in use, strictly rising.
#![tactic(auto)]

ghost use Rattle.std.specs.Prelude.{◌≡◌, not, ◌<◌, T, eqb, length};
ghost use Rattle.lists.specs.Order.{rising};
ghost use Rattle.lists.specs.Tests.{every, exists};
ghost use Rattle.tally.specs.Standing.{among};
ghost use Rattle.tally.specs.Tap.{fields, tap_of, tap_fits};
ghost use Rattle.taps.specs.Region.{word_taps, taps_at, inserted_at};

use tally::{fits, unpack};

// Whether one of four words is w.
fn is_one_of(four: &[u64; 4], w: u64) -> bool
    ensures { result ≡ exists (λ v. eqb v w) four.now }
{
    four.iter().any(|v| *v == w)
}

fn stands_in_fours(fours: &[[u64; 4]], w: u64) -> bool
    ensures { result ≡ exists (λ four. exists (λ v. eqb v w) four) fours.now }
{
    fours.iter().any(|four| is_one_of(four, w))
}

fn stands_in(words: &[u64], w: u64) -> bool
    ensures { result ≡ exists (λ v. eqb v w) words.now }
{
    words.iter().any(|v| *v == w)
}

// Whether the tap of w is one of the words'. Four at a time: a tap and a gossip spend most of their time here.
pub fn has(words: &[u64], w: u64) -> bool
    ensures { result ≡ among (word_taps words.now) (tap_of w) }
{
    let (fours, rest) = words.as_chunks::<4>();
    stands_in_fours(fours, w) || stands_in(rest, w)
}

// Puts a new word in its place among the first n: the larger words move up by one.
pub fn insert_word(r: &mut [u64], n: usize, w: u64)
    requires n_in_bounds { n < length r.old }
    requires t { T (rising fields (taps_at n r.old)) }
    requires t_2 { T (not (among (taps_at n r.old) (tap_of w))) }
    ensures { r.new ≡ inserted_at n w r.old }
{
    let place = r[..n].partition_point(|&v| v < w);
    r.copy_within(place..n, place + 1);
    r[place] = w;
}

// Whether the words are strictly rising: each above the one before it.
pub fn rising_words(words: &[u64]) -> bool
    ensures { result ≡ rising fields (word_taps words.now) }
{
    words.is_sorted_by(|v, w| v < w)
}

// Whether each word's tap keeps the field rules.
pub fn all_fit(words: &[u64]) -> bool
    ensures { result ≡ every tap_fits (word_taps words.now) }
{
    words.iter().map(|&w| unpack(w)).all(fits)
}
