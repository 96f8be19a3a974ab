// The wire's kinds of message: what each says, how long it is, and the two steps that every reader and writer takes.
#![tactic(auto)]

ghost use Rattle.std.specs.Prelude.{◌≡◌};
ghost use Rattle.stamp.specs.Stamp.{total};
ghost use Rattle.wire.specs.Kinds.{body_by, shaped};
ghost use Rattle.wire.specs.Refusal.{table_number};
ghost use Rattle.wire.specs.Read.{IsWidths, line_as};
ghost use Rattle.wire.specs.Requests.{reply_room};
ghost use Rattle.wire.specs.Write.{Meets, put_line};

use limits::{LOG_ROOM, PARTS};
use numbers::{fields_fit, put_fields, read_fields};
use stamp::Parts;
use tally::Tap;

// The head of a gossip message: the sender's number, its N, how many records follow, and its known stamp.
#[derive(Clone, Copy)]
pub struct Head {
    pub sender: u64,
    pub screens: u64,
    pub count: u64,
    pub stamp: Parts,
}

// A record, its body being a tap.
#[derive(Clone, Copy)]
pub struct Record {
    pub origin: u64,
    pub number: u64,
    pub label: Parts,
    pub tap: Tap,
}

// A tap, made at a label.
#[derive(Clone, Copy)]
pub struct TapRequest {
    pub tap: Tap,
    pub label: Parts,
}

// A question on a prompt, at a label.
#[derive(Clone, Copy)]
pub struct Question {
    pub prompt: u64,
    pub label: Parts,
}

// The answer to a question.
#[derive(Clone, Copy)]
pub struct Verdict {
    pub verdict: u64,
    pub showing: u64,
    pub accepts: u64,
    pub declines: u64,
    pub value: Parts,
}

// How many records of a gossip were new, and how many became applied.
#[derive(Clone, Copy)]
pub struct GossipTaken {
    pub new: u64,
    pub applied: u64,
}

// Which screen a book is opened for, and how many the house has.
#[derive(Clone, Copy)]
pub struct Open {
    pub screen: u64,
    pub screens: u64,
}

// Why a request is refused, by its number in document 01's table: ten is not used.
#[derive(Clone, Copy, Debug, PartialEq, Eq)]
pub enum Refusal {
    // No message of the kind, or a broken field rule.
    Bad = 1,
    // N is not 2 to 8, or the screen's number not below it; gossip of another N, or from the screen itself.
    WrongHouse = 2,
    // The label's part i exceeds the known stamp's.
    UnknownLabel = 3,
    // Gossip whose stamp the sender's row covers.
    Old = 4,
    // Gossip whose stamp does not cover the sender's row.
    Crossed = 5,
    // Gossip that knows more of the screen's own records than it has made.
    Ahead = 6,
    // The book would know more records than it may.
    Spent = 7,
    // A record that the message's stamp tells of is missing.
    Gap = 8,
    // The log has no room for the new records.
    NoRoom = 9,
    // The lent book is unsound or of wrong length.
    Unsound = 11,
    // The output is too short.
    Short = 12,
}

impl Refusal {
    // Its number in the table.
    pub fn number(self) -> u64
        ensures { result ≡ table_number self }
    {
        self as u64
    }
}

// The bytes of a stamp's part, and of a bit for each part.
pub const PART_WIDTH: usize = 4;

pub const BITS_WIDTH: usize = (PARTS + 7) / 8;

// A stamp's bytes, and those of a tap's five fields.
const STAMP_BODY: usize = PARTS * PART_WIDTH;

const TAP_FIELDS_BODY: usize = 9;

// The kinds, each with its body's length. Kept: numbers, since `body_of` promises of every byte, by the `match` that
// document 01 names.
pub const HEAD: u8 = 1;

pub const HEAD_BODY: usize = 4 + STAMP_BODY;

pub const RECORD: u8 = 2;

pub const RECORD_BODY: usize = 5 + STAMP_BODY + TAP_FIELDS_BODY;

pub const TAP: u8 = 3;

pub const TAP_BODY: usize = TAP_FIELDS_BODY + STAMP_BODY;

pub const QUESTION: u8 = 4;

pub const QUESTION_BODY: usize = 1 + STAMP_BODY;

pub const TAKEN: u8 = 5;

pub const TAKEN_BODY: usize = STAMP_BODY;

pub const ALREADY: u8 = 6;

pub const ALREADY_BODY: usize = STAMP_BODY;

pub const VERDICT: u8 = 7;

pub const VERDICT_BODY: usize = 11 + STAMP_BODY;

pub const WAIT: u8 = 8;

pub const WAIT_BODY: usize = BITS_WIDTH;

pub const REFUSAL: u8 = 9;

pub const REFUSAL_BODY: usize = 1;

pub const GOSSIP_TAKEN: u8 = 10;

pub const GOSSIP_TAKEN_BODY: usize = 4;

pub const OPEN: u8 = 11;

pub const OPEN_BODY: usize = 2;

pub const SEND: u8 = 12;

pub const SEND_BODY: usize = 0;

// A message is one byte of kind and its body. A gossip message is a head and then records, at most as many as a log
// holds.
pub const KIND_SIZE: usize = 1;

pub const HEAD_SIZE: usize = KIND_SIZE + HEAD_BODY;

pub const RECORD_SIZE: usize = KIND_SIZE + RECORD_BODY;

pub const LONGEST: usize = HEAD_SIZE + LOG_ROOM as usize * RECORD_SIZE;

// The body's length that the kind fixes.
pub fn body_of(kind: u8) -> Result<usize, Refusal>
    ensures { result ≡ body_by kind }
{
    match kind {
        HEAD => Ok(HEAD_BODY),
        RECORD => Ok(RECORD_BODY),
        TAP => Ok(TAP_BODY),
        QUESTION => Ok(QUESTION_BODY),
        TAKEN => Ok(TAKEN_BODY),
        ALREADY => Ok(ALREADY_BODY),
        VERDICT => Ok(VERDICT_BODY),
        WAIT => Ok(WAIT_BODY),
        REFUSAL => Ok(REFUSAL_BODY),
        GOSSIP_TAKEN => Ok(GOSSIP_TAKEN_BODY),
        OPEN => Ok(OPEN_BODY),
        SEND => Ok(SEND_BODY),
        _ => Err(Refusal::Bad),
    }
}

// The longest replies to gossip, a tap and a question.
pub const GOSSIP_ROOM: usize = KIND_SIZE + GOSSIP_TAKEN_BODY;

pub const TAP_ROOM: usize = KIND_SIZE + TAKEN_BODY;

const QUESTION_ROOM: usize = KIND_SIZE + VERDICT_BODY;

// The room that is always enough for the reply to a request of this kind; none where the kind is no request's.
pub fn room_of(kind: u8) -> Option<usize>
    ensures { result ≡ reply_room kind }
{
    match kind {
        HEAD => Some(GOSSIP_ROOM),
        TAP => Some(TAP_ROOM),
        QUESTION => Some(QUESTION_ROOM),
        SEND => Some(LONGEST),
        _ => None,
    }
}

// Whether the bytes are of this kind and of its length.
pub fn is_kind(msg: &[u8], kind: u8) -> bool
    ensures { result ≡ shaped kind msg.now }
{
    match msg {
        [first, body @ ..] => *first == kind && body_of(kind) == Ok(body.len()),
        [] => false,
    }
}

// The row of numbers that the bytes hold, one for each width; refused with 1 where they are not of this kind and of its
// length. Always in line: a reader of whose row little is asked reads no more, and none of bytes of another kind.
#[inline(always)]
pub fn read_line<const N: usize>(kind: u8, ws: &[usize; N], msg: &[u8]) -> Result<[u64; N], Refusal>
    requires { IsWidths kind ws.now }
    ensures { result ≡ line_as kind ws.now msg.now }
{
    if !is_kind(msg, kind) {
        return Err(Refusal::Bad);
    }
    let mut line = [0u64; N];
    read_fields(&mut line, ws, msg);
    Ok(line)
}

// The row of numbers at the front of out: refused with 1 where one does not fit its width, then with 12 where out is
// too short.
pub fn put_line(ws: &[usize], long: usize, line: &[u64], out: &mut [u8]) -> Result<usize, Refusal>
    requires { total ws.now ≡ long }
    ensures { Meets (put_line ws.now line.now out.old) result out.new }
{
    if !fields_fit(ws, line) {
        return Err(Refusal::Bad);
    }
    if out.len() < long {
        return Err(Refusal::Short);
    }
    put_fields(out, ws, line);
    Ok(long)
}
