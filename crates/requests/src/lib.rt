// Requests: what a screen is sent, each kind with its reader and its writer. A gossip message is a head and then
// records.
#![tactic(auto)]

ghost use Rattle.std.specs.Prelude.{◌≡◌, ◌∷◌, ◌+◌, ◌≤◌, leb, length};
ghost use Rattle.lists.specs.Part.{patch};
ghost use Rattle.limits.specs.Limits.{log_room};
ghost use Rattle.stamp.specs.Parts.{list_of};
ghost use Rattle.tally.specs.Tap.{fields};
ghost use Rattle.wire.specs.Kinds.{tap_body, head_body, record_body, tap_message_body, question_body};
ghost use Rattle.wire.specs.Kinds.{tap_at, head_kind, record_kind, tap_kind, question_kind, open_kind, send_kind};
ghost use Rattle.wire.specs.Read.{read_as};
ghost use Rattle.wire.specs.Said.{figures};
ghost use Rattle.wire.specs.Says.{says, head_says, record_says, tap_says, question_says, open_says};
ghost use Rattle.wire.specs.Write.{Meets, write_as};
ghost use Rattle.wire.specs.Says as said;

use ledger::{in_range, label_fits};
use limits::{LOG_ROOM, PARTS};
use stamp::{Parts, list_of, part_of, parts_at, parts_fit, put_parts};
use tally::{Tap, fits, prompt_fits};
use wire::{
    HEAD, HEAD_SIZE, Head, KIND_SIZE, OPEN, OPEN_BODY, Open, PART_WIDTH, QUESTION, QUESTION_BODY,
    Question, RECORD, RECORD_SIZE, Record, Refusal, SEND, SEND_BODY, TAP, TAP_BODY, TapRequest,
    is_kind, put_line, read_line,
};

// Where the fields stand in a line: the kind first, a stamp in as many places as it has parts, a tap in five.
const KIND: usize = 0;

const FIRST: usize = 1;

const SECOND: usize = 2;

const THIRD: usize = 3;

const TAP_FIELDS: usize = 5;

const HEAD_STAMP: usize = 4;

const RECORD_LABEL: usize = 3;

const RECORD_TAP: usize = RECORD_LABEL + PARTS;

const TAP_LABEL: usize = FIRST + TAP_FIELDS;

const QUESTION_LABEL: usize = 2;

// How many places a line has, and how many bytes its message. With a stamp its widths come from a function.
const HEAD_LINE: usize = HEAD_STAMP + PARTS;

const RECORD_LINE: usize = RECORD_TAP + TAP_FIELDS;

const TAP_LINE: usize = TAP_LABEL + PARTS;

const TAP_SIZE: usize = KIND_SIZE + TAP_BODY;

const QUESTION_LINE: usize = QUESTION_LABEL + PARTS;

const QUESTION_SIZE: usize = KIND_SIZE + QUESTION_BODY;

const OPEN_LINE: usize = 3;

const OPEN_WIDTHS: [usize; OPEN_LINE] = [1, 1, 1];

const OPEN_SIZE: usize = KIND_SIZE + OPEN_BODY;

const SEND_LINE: usize = 1;

const SEND_WIDTHS: [usize; SEND_LINE] = [1];

const SEND_SIZE: usize = KIND_SIZE + SEND_BODY;

// The tap that stands in a line from a place on.
fn tap_at(line: &[u64], at: usize) -> Tap
    requires { at + 5 ≤ length line.now }
    ensures { result ≡ tap_at at line.now }
{
    Tap {
        front: line[at],
        serial: line[at + 1],
        prompt: line[at + 2],
        showing: line[at + 3],
        answer: line[at + 4],
    }
}

// The widths of a tap's fields, put among a line's from a place on; and the fields themselves.
fn put_tap_widths(ws: &mut [usize], at: usize)
    requires { at + 5 ≤ length ws.old }
    ensures { ws.new ≡ patch at 5 ws.old tap_body }
{
    ws[at] = 1;
    ws[at + 1] = 4;
    ws[at + 2] = 1;
    ws[at + 3] = 2;
    ws[at + 4] = 1;
}

fn put_tap(line: &mut [u64], at: usize, tap: Tap)
    requires { at + 5 ≤ length line.old }
    ensures { line.new ≡ patch at 5 line.old (fields tap) }
{
    line[at] = tap.front;
    line[at + 1] = tap.serial;
    line[at + 2] = tap.prompt;
    line[at + 3] = tap.showing;
    line[at + 4] = tap.answer;
}

#[tactic(auto, unfolding(limits::specs::Limits::log_room))]
fn count_fits(count: u64) -> bool
    ensures { result ≡ leb count log_room }
{
    matches!(count, 0..=LOG_ROOM)
}

// The field rules of each kind, for its reader and its writer alike.
#[tactic(auto, unfolding(wire::specs::Kinds::head_kind, stamp::specs::Parts::parts_at, stamp::specs::Parts::list_of))]
fn head_fits(head: Head) -> bool
    ensures { result ≡ head_kind.rules (figures (head_says head)) }
{
    in_range(head.sender, head.screens)
        && count_fits(head.count)
        && parts_fit(head.stamp, head.screens as usize)
}

// A line's widths, for its reader and its writer alike: a stamp's fill the line, the others are set over them.
fn head_widths() -> [usize; HEAD_LINE]
    ensures { result ≡ 1 ∷ head_body }
{
    let mut ws = [PART_WIDTH; HEAD_LINE];
    ws[KIND] = KIND_SIZE;
    ws[FIRST] = 1;
    ws[SECOND] = 1;
    ws[THIRD] = 2;
    ws
}

pub fn read_head(msg: &[u8]) -> Result<Head, Refusal>
    ensures { says head_says result ≡ read_as head_kind msg.now }
{
    let line = read_line(HEAD, &head_widths(), msg)?;
    let head = Head {
        sender: line[FIRST],
        screens: line[SECOND],
        count: line[THIRD],
        stamp: parts_at(&line, HEAD_STAMP),
    };
    if !head_fits(head) {
        return Err(Refusal::Bad);
    }
    Ok(head)
}

pub fn write_head(head: Head, out: &mut [u8]) -> Result<usize, Refusal>
    ensures { Meets (write_as head_kind (figures (head_says head)) out.old) result out.new }
{
    if !head_fits(head) {
        return Err(Refusal::Bad);
    }
    let mut line = [0u64; HEAD_LINE];
    line[KIND] = u64::from(HEAD);
    line[FIRST] = head.sender;
    line[SECOND] = head.screens;
    line[THIRD] = head.count;
    put_parts(&mut line, HEAD_STAMP, head.stamp);
    put_line(&head_widths(), HEAD_SIZE, &line, out)
}

// Always in line: a record is judged in the registers that it was read into, and not by way of memory.
#[inline(always)]
fn record_fits(entry: Record, n: usize, m: Parts) -> bool
    ensures { result ≡ (record_kind n (list_of m)).rules (figures (record_says entry)) }
{
    if !fits(entry.tap) {
        return false;
    }
    let label = list_of(entry.label);
    if !label_fits(entry.origin, entry.number, &label, n) {
        return false;
    }
    entry.number <= part_of(m, entry.origin)
}

fn record_widths() -> [usize; RECORD_LINE]
    ensures { result ≡ 1 ∷ record_body }
{
    let mut ws = [PART_WIDTH; RECORD_LINE];
    ws[KIND] = KIND_SIZE;
    ws[FIRST] = 1;
    ws[SECOND] = 4;
    put_tap_widths(&mut ws, RECORD_TAP);
    ws
}

// A record of a message whose head has n screens and stamp m.
pub fn read_record(part: &[u8], n: usize, m: Parts) -> Result<Record, Refusal>
    ensures { says record_says result ≡ read_as (record_kind n (list_of m)) part.now }
{
    let line = read_line(RECORD, &record_widths(), part)?;
    let entry = Record {
        origin: line[FIRST],
        number: line[SECOND],
        label: parts_at(&line, RECORD_LABEL),
        tap: tap_at(&line, RECORD_TAP),
    };
    if !record_fits(entry, n, m) {
        return Err(Refusal::Bad);
    }
    Ok(entry)
}

pub fn write_record(entry: Record, n: usize, m: Parts, out: &mut [u8]) -> Result<usize, Refusal>
    ensures { Meets (write_as (record_kind n (list_of m)) (figures (record_says entry)) out.old) result out.new }
{
    if !record_fits(entry, n, m) {
        return Err(Refusal::Bad);
    }
    let mut line = [0u64; RECORD_LINE];
    line[KIND] = u64::from(RECORD);
    line[FIRST] = entry.origin;
    line[SECOND] = entry.number;
    put_parts(&mut line, RECORD_LABEL, entry.label);
    put_tap(&mut line, RECORD_TAP, entry.tap);
    put_line(&record_widths(), RECORD_SIZE, &line, out)
}

#[tactic(auto, unfolding(wire::specs::Kinds::tap_kind, stamp::specs::Parts::parts_at, stamp::specs::Parts::list_of))]
fn tap_fits(asked: TapRequest, n: usize) -> bool
    ensures { result ≡ (tap_kind n).rules (figures (tap_says asked)) }
{
    fits(asked.tap) && parts_fit(asked.label, n)
}

fn tap_widths() -> [usize; TAP_LINE]
    ensures { result ≡ 1 ∷ tap_message_body }
{
    let mut ws = [PART_WIDTH; TAP_LINE];
    ws[KIND] = KIND_SIZE;
    put_tap_widths(&mut ws, FIRST);
    ws
}

// With no book at hand n is the number of parts, and all are free; so for a question.
pub fn read_tap(msg: &[u8], n: usize) -> Result<TapRequest, Refusal>
    ensures { says tap_says result ≡ read_as (tap_kind n) msg.now }
{
    let line = read_line(TAP, &tap_widths(), msg)?;
    let asked = TapRequest {
        tap: tap_at(&line, FIRST),
        label: parts_at(&line, TAP_LABEL),
    };
    if !tap_fits(asked, n) {
        return Err(Refusal::Bad);
    }
    Ok(asked)
}

pub fn write_tap(asked: TapRequest, n: usize, out: &mut [u8]) -> Result<usize, Refusal>
    ensures { Meets (write_as (tap_kind n) (figures (tap_says asked)) out.old) result out.new }
{
    if !tap_fits(asked, n) {
        return Err(Refusal::Bad);
    }
    let mut line = [0u64; TAP_LINE];
    line[KIND] = u64::from(TAP);
    put_tap(&mut line, FIRST, asked.tap);
    put_parts(&mut line, TAP_LABEL, asked.label);
    put_line(&tap_widths(), TAP_SIZE, &line, out)
}

fn question_fits(question: Question, n: usize) -> bool
    ensures { result ≡ (question_kind n).rules (figures (question_says question)) }
{
    prompt_fits(question.prompt) && parts_fit(question.label, n)
}

fn question_widths() -> [usize; QUESTION_LINE]
    ensures { result ≡ 1 ∷ question_body }
{
    let mut ws = [PART_WIDTH; QUESTION_LINE];
    ws[KIND] = KIND_SIZE;
    ws[FIRST] = 1;
    ws
}

pub fn read_question(msg: &[u8], n: usize) -> Result<Question, Refusal>
    ensures { says question_says result ≡ read_as (question_kind n) msg.now }
{
    let line = read_line(QUESTION, &question_widths(), msg)?;
    let question = Question {
        prompt: line[FIRST],
        label: parts_at(&line, QUESTION_LABEL),
    };
    if !question_fits(question, n) {
        return Err(Refusal::Bad);
    }
    Ok(question)
}

pub fn write_question(question: Question, n: usize, out: &mut [u8]) -> Result<usize, Refusal>
    ensures { Meets (write_as (question_kind n) (figures (question_says question)) out.old) result out.new }
{
    if !question_fits(question, n) {
        return Err(Refusal::Bad);
    }
    let mut line = [0u64; QUESTION_LINE];
    line[KIND] = u64::from(QUESTION);
    line[FIRST] = question.prompt;
    put_parts(&mut line, QUESTION_LABEL, question.label);
    put_line(&question_widths(), QUESTION_SIZE, &line, out)
}

// Its fields are judged by refusal 2, not here.
pub fn read_open(msg: &[u8]) -> Result<Open, Refusal>
    ensures { says open_says result ≡ read_as open_kind msg.now }
{
    let line = read_line(OPEN, &OPEN_WIDTHS, msg)?;
    Ok(Open {
        screen: line[FIRST],
        screens: line[SECOND],
    })
}

pub fn write_open(opening: Open, out: &mut [u8]) -> Result<usize, Refusal>
    ensures { Meets (write_as open_kind (figures (open_says opening)) out.old) result out.new }
{
    let line = [u64::from(OPEN), opening.screen, opening.screens];
    put_line(&OPEN_WIDTHS, OPEN_SIZE, &line, out)
}

pub fn read_send(msg: &[u8]) -> Result<(), Refusal>
    ensures { says (λ _. said.Send) result ≡ read_as send_kind msg.now }
{
    if !is_kind(msg, SEND) {
        return Err(Refusal::Bad);
    }
    Ok(())
}

pub fn write_send(out: &mut [u8]) -> Result<usize, Refusal>
    ensures { Meets (write_as send_kind (figures said.Send) out.old) result out.new }
{
    let line = [u64::from(SEND)];
    put_line(&SEND_WIDTHS, SEND_SIZE, &line, out)
}
