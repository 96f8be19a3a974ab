// Document 01's small program in memory: the input is read at once, and what each turn says is compared as it comes.
ghost use Rattle.std.specs.Prelude.{◌≡◌, ◌≤◌, length, replicate};
ghost use Rattle.wire.specs.Kinds.{longest};
ghost use Rattle.lent.specs.Words.{book_long};
ghost use Rattle.program.specs.Said.{said_by};
ghost use Rattle.vectors.specs.Compare.{compared_at, outcome_of};

use lent::BOOK;
use program::{Turn, next_turn};
use vectors::compare::{Differs, compare_at, end_at};
use wire::LONGEST;

// All that the program says to an input, compared piece by piece from the front on.
fn follow(book: &mut [u64], input: &[u8], out: &mut [u8], expected: &[u8]) -> Result<usize, Differs>
    requires { longest ≤ length out.old }
    ensures { result ≡ compared_at 0 (said_by book.old input.now) expected.now }
{
    let mut at = 0;
    let mut place = 0;
    let mut opened = false;
    // Kept: a loop, since each turn says how far the next begins.
    loop {
        match next_turn(book, &input[at..], true, opened, out) {
            Turn::Say { used, said } => {
                place = compare_at(&out[..said], expected, place)?;
                at += used;
                opened = true;
            }
            Turn::Last(said) => return compare_at(&out[..said], expected, place),
            Turn::Stop => return Ok(place),
            // The input has ended, so nothing more is asked for.
            Turn::Read(_) => return Err(Differs { at: place }),
        }
    }
}

// The program on a fresh book: whether it writes exactly what is expected.
pub fn play(input: &[u8], expected: &[u8]) -> Result<usize, Differs>
    ensures { result ≡ outcome_of (said_by (replicate book_long 0) input.now) expected.now }
{
    let mut book = [0u64; BOOK];
    let mut out = [0u8; LONGEST];
    end_at(follow(&mut book, input, &mut out, expected), expected)
}
