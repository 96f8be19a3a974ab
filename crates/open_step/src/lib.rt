// Open: the fresh book of screen i of N on a lent slice.
#![tactic(auto)]

ghost use Rattle.promise.specs.Lent.{open_on};
ghost use Rattle.open_step.specs.Opening.{Opens};

use ledger::in_range;
use lent::{BOOK, SCREEN, SCREENS};
use wire::Refusal;

// The fresh book of screen i of n.
pub fn open_book(b: &mut [u64], i: u64, n: u64) -> Result<(), Refusal>
    ensures { Opens (open_on b.old i n) result b.new }
{
    if b.len() != BOOK {
        return Err(Refusal::Unsound);
    }
    if !in_range(i, n) {
        return Err(Refusal::WrongHouse);
    }
    b.fill(0);
    b[SCREEN] = i;
    b[SCREENS] = n;
    Ok(())
}
