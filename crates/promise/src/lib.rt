// What a screen answers, as a value: each case has its own data.
#![tactic(auto)]

ghost use Rattle.std.specs.Prelude.{◌≡◌};
ghost use Rattle.wire.specs.Refusal.{table_number};
ghost use Rattle.promise.specs.declared.Reply.TheVariants as says;

use stamp::Parts;
use wire::{GossipTaken, Refusal, Verdict};

// The answers to a tap (Taken, Already), a question (Verdict, Wait) and a gossip (Gossiped), and why one is refused.
// Kept: Refused has a number, since `answer::speak` promises of any, and refuses what the table has not.
#[derive(Clone, Copy)]
pub enum Reply {
    Taken(Parts),
    Already(Parts),
    Verdict(Verdict),
    Wait(u64),
    Refused(u64),
    Gossiped(GossipTaken),
}

impl From<Refusal> for Reply {
    ghost from_gives = { λ r reply. reply ≡ says.Refused (table_number r) };

    fn from(refusal: Refusal) -> Reply {
        Reply::Refused(refusal.number())
    }
}
