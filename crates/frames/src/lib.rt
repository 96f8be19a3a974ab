// The next message of standard input: how many bytes it has, as far as what is read tells, and whether it is whole.
#![tactic(auto)]

ghost use Rattle.std.specs.Prelude.{◌≡◌, ◌≤◌, ◌<◌, length};
ghost use Rattle.limits.specs.Limits.{log_room};
ghost use Rattle.frames.specs.Frame.{expected, gossip_frame, frame_of};
ghost use Rattle.frames.specs.Next.{record_stands, records_stand, Counted, kinds_stand, next_of};

use limits::log_room;
use numbers::number_at;
use wire::{HEAD, HEAD_SIZE, KIND_SIZE, OPEN, RECORD, RECORD_SIZE, body_of, room_of};

// At least so many bytes in all are needed to tell; the message has so many in all; or 09 01 is written, and reading
// stops.
#[derive(Clone, Copy, Debug, PartialEq, Eq)]
pub enum Frame {
    More(usize),
    Whole(usize),
    Stop,
}

// Where a gossip's head has its count, and how many bytes tell it.
const COUNT_AT: usize = 3;

const COUNT_WIDTH: usize = 2;

const COUNT_END: usize = COUNT_AT + COUNT_WIDTH;

// Kind 11 comes first, then requests.
#[tactic(auto, unfolding(crate::specs::Frame::expected, wire::specs::Requests::is_request))]
fn is_expected(kind: u8, opened: bool) -> bool
    ensures { result ≡ expected opened kind }
{
    if opened {
        room_of(kind).is_some()
    } else {
        kind == OPEN
    }
}

// A head's count fixes how many records follow.
#[tactic(auto, using(crate::proofs::Lines::counted_head), unfolding(crate::specs::Frame::gossip_frame))]
fn gossip_frame(read: &[u8]) -> Frame
    ensures { result ≡ gossip_frame read.now }
{
    if read.len() < COUNT_END {
        return Frame::More(COUNT_END);
    }
    let count = number_at(read, COUNT_AT, COUNT_WIDTH);
    if log_room() < count {
        return Frame::Stop;
    }
    Frame::Whole(HEAD_SIZE + count as usize * RECORD_SIZE)
}

#[tactic(auto, using(crate::proofs::Lines::first_byte))]
pub fn frame_of(read: &[u8], opened: bool) -> Frame
    ensures { result ≡ frame_of read.now opened }
{
    let Some(&kind) = read.first() else {
        return Frame::More(KIND_SIZE);
    };
    if !is_expected(kind, opened) {
        return Frame::Stop;
    }
    if kind == HEAD {
        return gossip_frame(read);
    }
    match body_of(kind) {
        Ok(long) => Frame::Whole(KIND_SIZE + long),
        Err(_) => Frame::Stop,
    }
}

// Whether record k of a gossip message has its kind, as far as that byte is read.
#[tactic(auto, using(crate::proofs::Lines::counted_head))]
fn record_stands(read: &[u8], k: usize) -> bool
    requires { k < log_room }
    ensures { result ≡ record_stands read.now k }
{
    let at = HEAD_SIZE + k * RECORD_SIZE;
    read.len() <= at || read[at] == RECORD
}

// Whether each of the first records of a gossip message has its kind, as far as it is read.
fn records_stand(read: &[u8], count: usize) -> bool
    requires { count ≤ log_room }
    ensures { result ≡ records_stand count read.now }
{
    (0..count).all(|k| record_stands(read, k))
}

// Whether every piece of a message has its kind, as far as it is read.
#[tactic(auto, using(crate::proofs::Lines::counted_head), unfolding(crate::specs::Next::kinds_stand))]
fn kinds_stand(read: &[u8]) -> bool
    requires read_nonzero { 0 < length read.now }
    requires counted { Counted read.now }
    ensures { result ≡ kinds_stand read.now }
{
    if read[0] != HEAD {
        return true;
    }
    let count = number_at(read, COUNT_AT, COUNT_WIDTH);
    records_stand(read, count as usize)
}

// The next message in what is read: whole only when all of it is there and each piece of it has its kind.
#[tactic(auto, using(crate::specs::NextLaws::counted), unfolding(crate::specs::Next::next_of))]
pub fn next_in(read: &[u8], opened: bool) -> Frame
    ensures { result ≡ next_of read.now opened }
{
    match frame_of(read, opened) {
        Frame::Whole(_) if !kinds_stand(read) => Frame::Stop,
        Frame::Whole(n) if read.len() < n => Frame::More(n),
        frame => frame,
    }
}
