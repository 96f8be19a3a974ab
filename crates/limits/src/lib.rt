// One page of numbers, as the code has them: constants where the language asks for one, and small functions for all
// else.
#![tactic(auto, unfolding(crate::specs::Limits::log_room, crate::specs::Limits::book_room, crate::specs::Limits::most))]

ghost use Rattle.std.specs.Prelude.{◌≡◌};
ghost use Rattle.limits.specs.Limits.{most, log_room, book_room};

// The fewest and the most screens of a house.
pub const FEWEST: u64 = 2;

pub const MOST: u64 = 8;

// A stamp's parts.
pub const PARTS: usize = 8;

// A part is a number of 32 bits: it stands below this.
pub const WORD: u64 = 4294967296;

// Records in a log, and so in a message; records that a book may know.
pub const LOG_ROOM: u64 = 256;

pub const BOOK_ROOM: u64 = 1024;

// How many front ends, serials, prompts and showings there are, counted from 0.
pub const FRONT_ENDS: u64 = 256;

pub const SERIALS: u64 = 4294967296;

pub const PROMPT_COUNT: u64 = 64;

pub const SHOWINGS: u64 = 65536;

// The two answers. Kept: numbers, since `tally::tap_fits` promises of any number, and is false of the others.
pub const ACCEPT: u64 = 1;

pub const DECLINE: u64 = 2;

// The limits as calls. Kept: three that differ in a constant, so that a caller's goals have its name and no number.
pub fn most_screens() -> u64
    ensures { result ≡ most }
{
    MOST
}

pub fn log_room() -> u64
    ensures { result ≡ log_room }
{
    LOG_ROOM
}

pub fn book_room() -> u64
    ensures { result ≡ book_room }
{
    BOOK_ROOM
}
