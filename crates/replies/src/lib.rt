// Replies: the six messages that a screen answers with, each with its reader and its writer.
#![tactic(auto)]

ghost use Rattle.std.specs.Prelude.{◌≡◌, ◌∷◌, leb};
ghost use Rattle.stamp.specs.Parts.{list_of};
ghost use Rattle.wire.specs.Kinds.{stamp_body, verdict_body, in_table};
ghost use Rattle.wire.specs.Kinds.{taken_kind, already_kind, verdict_kind, wait_kind, refusal_kind, gossip_taken_kind};
ghost use Rattle.wire.specs.Read.{read_as};
ghost use Rattle.wire.specs.Said.{figures};
ghost use Rattle.wire.specs.Says.{says, verdict_says, gossip_taken_says};
ghost use Rattle.wire.specs.Write.{Meets, put_line, write_as};
ghost use Rattle.wire.specs.Says as said;
ghost use Rattle.replies.specs.Which.{reply_kind};

use limits::PARTS;
use stamp::{Parts, parts_at, put_parts};
use tally::{CONTESTED, UNASKED};
use wire::{
    ALREADY, BITS_WIDTH, GOSSIP_TAKEN, GOSSIP_TAKEN_BODY, GossipTaken, KIND_SIZE, PART_WIDTH,
    REFUSAL, REFUSAL_BODY, Refusal, TAKEN, TAKEN_BODY, VERDICT, VERDICT_BODY, Verdict, WAIT,
    WAIT_BODY, put_line, read_line,
};

// Where the fields stand in a line: the kind first, a stamp in as many places as it has parts.
const KIND: usize = 0;

const FIRST: usize = 1;

const SECOND: usize = 2;

const THIRD: usize = 3;

const FOURTH: usize = 4;

const FIFTH: usize = 5;

// How many places a line has, and how many bytes its message. With a stamp its widths come from a function.
const STAMP_LINE: usize = FIRST + PARTS;

const STAMP_SIZE: usize = KIND_SIZE + TAKEN_BODY;

const VERDICT_LINE: usize = FIFTH + PARTS;

const VERDICT_SIZE: usize = KIND_SIZE + VERDICT_BODY;

const WAIT_LINE: usize = 2;

const WAIT_WIDTHS: [usize; WAIT_LINE] = [KIND_SIZE, BITS_WIDTH];

const WAIT_SIZE: usize = KIND_SIZE + WAIT_BODY;

const REFUSAL_LINE: usize = 2;

const REFUSAL_WIDTHS: [usize; REFUSAL_LINE] = [1, 1];

const REFUSAL_SIZE: usize = KIND_SIZE + REFUSAL_BODY;

const GOSSIP_TAKEN_LINE: usize = 3;

const GOSSIP_TAKEN_WIDTHS: [usize; GOSSIP_TAKEN_LINE] = [1, 2, 2];

const GOSSIP_TAKEN_SIZE: usize = KIND_SIZE + GOSSIP_TAKEN_BODY;

// The refusals of document 01's table: ten is not used. Kept: numbers, since `write_refusal` takes any and promises to
// refuse what the table has not.
const FIRST_REFUSAL: u64 = 1;

const BEFORE_TEN: u64 = 9;

const AFTER_TEN: u64 = 11;

const LAST_REFUSAL: u64 = 12;

// No reply has this kind. Kept: a number, since C's `consent_reply_kind` gives it.
const NO_REPLY: u8 = 0;

// A line's widths, for its reader and its writer alike: a stamp's fill the line, the others are set over them.
fn stamp_widths() -> [usize; STAMP_LINE]
    ensures { result ≡ 1 ∷ stamp_body }
{
    let mut ws = [PART_WIDTH; STAMP_LINE];
    ws[KIND] = KIND_SIZE;
    ws
}

pub fn read_taken(msg: &[u8]) -> Result<Parts, Refusal>
    ensures { says said.Taken result ≡ read_as taken_kind msg.now }
{
    let line = read_line(TAKEN, &stamp_widths(), msg)?;
    Ok(parts_at(&line, FIRST))
}

pub fn write_taken(stamp: Parts, out: &mut [u8]) -> Result<usize, Refusal>
    ensures { Meets (write_as taken_kind (figures (said.Taken stamp)) out.old) result out.new }
{
    put_stamp(TAKEN, stamp, out)
}

pub fn read_already(msg: &[u8]) -> Result<Parts, Refusal>
    ensures { says said.Already result ≡ read_as already_kind msg.now }
{
    let line = read_line(ALREADY, &stamp_widths(), msg)?;
    Ok(parts_at(&line, FIRST))
}

pub fn write_already(stamp: Parts, out: &mut [u8]) -> Result<usize, Refusal>
    ensures { Meets (write_as already_kind (figures (said.Already stamp)) out.old) result
        out.new }
{
    put_stamp(ALREADY, stamp, out)
}

// The two kinds that hold a stamp alone.
fn put_stamp(kind: u8, s: Parts, out: &mut [u8]) -> Result<usize, Refusal>
    ensures { Meets (put_line (1 ∷ stamp_body) (kind ∷ list_of s) out.old) result out.new }
{
    let mut line = [0u64; STAMP_LINE];
    line[KIND] = u64::from(kind);
    put_parts(&mut line, FIRST, s);
    put_line(&stamp_widths(), STAMP_SIZE, &line, out)
}

fn verdict_fits(verdict: u64) -> bool
    ensures { result ≡ leb verdict 3 }
{
    matches!(verdict, UNASKED..=CONTESTED)
}

fn verdict_widths() -> [usize; VERDICT_LINE]
    ensures { result ≡ 1 ∷ verdict_body }
{
    let mut ws = [PART_WIDTH; VERDICT_LINE];
    ws[KIND] = KIND_SIZE;
    ws[FIRST] = 1;
    ws[SECOND] = 2;
    ws[THIRD] = 4;
    ws[FOURTH] = 4;
    ws
}

pub fn read_verdict(msg: &[u8]) -> Result<Verdict, Refusal>
    ensures { says verdict_says result ≡ read_as verdict_kind msg.now }
{
    let line = read_line(VERDICT, &verdict_widths(), msg)?;
    let answer = Verdict {
        verdict: line[FIRST],
        showing: line[SECOND],
        accepts: line[THIRD],
        declines: line[FOURTH],
        value: parts_at(&line, FIFTH),
    };
    if !verdict_fits(answer.verdict) {
        return Err(Refusal::Bad);
    }
    Ok(answer)
}

pub fn write_verdict(answer: Verdict, out: &mut [u8]) -> Result<usize, Refusal>
    ensures { Meets (write_as verdict_kind (figures (verdict_says answer)) out.old) result out.new }
{
    if !verdict_fits(answer.verdict) {
        return Err(Refusal::Bad);
    }
    let mut line = [0u64; VERDICT_LINE];
    line[KIND] = u64::from(VERDICT);
    line[FIRST] = answer.verdict;
    line[SECOND] = answer.showing;
    line[THIRD] = answer.accepts;
    line[FOURTH] = answer.declines;
    put_parts(&mut line, FIFTH, answer.value);
    put_line(&verdict_widths(), VERDICT_SIZE, &line, out)
}

pub fn read_wait(msg: &[u8]) -> Result<u64, Refusal>
    ensures { says said.Wait result ≡ read_as wait_kind msg.now }
{
    let line = read_line(WAIT, &WAIT_WIDTHS, msg)?;
    Ok(line[FIRST])
}

pub fn write_wait(bits: u64, out: &mut [u8]) -> Result<usize, Refusal>
    ensures { Meets (write_as wait_kind (figures (said.Wait bits)) out.old) result out.new }
{
    let line = [u64::from(WAIT), bits];
    put_line(&WAIT_WIDTHS, WAIT_SIZE, &line, out)
}

#[tactic(auto, unfolding(wire::specs::Kinds::in_table))]
fn in_table(number: u64) -> bool
    ensures { result ≡ in_table number }
{
    matches!(number, FIRST_REFUSAL..=BEFORE_TEN | AFTER_TEN..=LAST_REFUSAL)
}

pub fn read_refusal(msg: &[u8]) -> Result<u64, Refusal>
    ensures { says said.Refusal result ≡ read_as refusal_kind msg.now }
{
    let line = read_line(REFUSAL, &REFUSAL_WIDTHS, msg)?;
    let number = line[FIRST];
    if !in_table(number) {
        return Err(Refusal::Bad);
    }
    Ok(number)
}

pub fn write_refusal(number: u64, out: &mut [u8]) -> Result<usize, Refusal>
    ensures { Meets (write_as refusal_kind (figures (said.Refusal number)) out.old) result out.new }
{
    if !in_table(number) {
        return Err(Refusal::Bad);
    }
    let line = [u64::from(REFUSAL), number];
    put_line(&REFUSAL_WIDTHS, REFUSAL_SIZE, &line, out)
}

pub fn read_gossip_taken(msg: &[u8]) -> Result<GossipTaken, Refusal>
    ensures { says gossip_taken_says result ≡ read_as gossip_taken_kind msg.now }
{
    let line = read_line(GOSSIP_TAKEN, &GOSSIP_TAKEN_WIDTHS, msg)?;
    Ok(GossipTaken {
        new: line[FIRST],
        applied: line[SECOND],
    })
}

pub fn write_gossip_taken(taken: GossipTaken, out: &mut [u8]) -> Result<usize, Refusal>
    ensures { Meets (write_as gossip_taken_kind (figures (gossip_taken_says taken)) out.old) result out.new }
{
    let line = [u64::from(GOSSIP_TAKEN), taken.new, taken.applied];
    put_line(&GOSSIP_TAKEN_WIDTHS, GOSSIP_TAKEN_SIZE, &line, out)
}

// The kind of the reply that the bytes are; 0 where they are none that keeps its field rules.
pub fn reply_kind(msg: &[u8]) -> u8
    ensures { result ≡ reply_kind msg.now }
{
    if read_taken(msg).is_ok() {
        return TAKEN;
    }
    if read_already(msg).is_ok() {
        return ALREADY;
    }
    if read_verdict(msg).is_ok() {
        return VERDICT;
    }
    if read_wait(msg).is_ok() {
        return WAIT;
    }
    if read_refusal(msg).is_ok() {
        return REFUSAL;
    }
    if read_gossip_taken(msg).is_ok() {
        return GOSSIP_TAKEN;
    }
    NO_REPLY
}
