// The gossip message: its reader, and its records as parts of it.
#![tactic(auto)]

ghost use Rattle.std.specs.Prelude.{◌≡◌, ◌+◌, ◌*◌, ◌≤◌, length};
ghost use Rattle.stamp.specs.Parts.{list_of};
ghost use Rattle.wire.specs.Kinds.{record_kind, head_long, record_long};
ghost use Rattle.wire.specs.Read.{read_as};
ghost use Rattle.wire.specs.Says.{says, head_says, record_says};
ghost use Rattle.message.specs.Message.{parts_of, in_order, read_gossip};
ghost use Rattle.message.specs.Find.{part_at, below, place_for, Finds};

use requests::{read_head, read_record};
use stamp::Parts;
use wire::{HEAD_SIZE, Head, RECORD_SIZE, Record, Refusal};

// Where a record's origin stands.
const ORIGIN: usize = 1;

// Record i, handed on as a part of the message from its own first byte. The head has n screens and stamp m.
#[tactic(auto, unfolding(crate::specs::Find::part_at, lists::specs::Part::mid))]
pub fn record_at(msg: &[u8], i: usize, n: usize, m: Parts) -> Result<Record, Refusal>
    requires { head_long + (i + 1) * record_long ≤ length msg.now }
    ensures { says record_says result ≡ read_as (record_kind n (list_of m)) (part_at i msg.now) }
{
    let at = HEAD_SIZE + i * RECORD_SIZE;
    read_record(&msg[at..at + RECORD_SIZE], n, m)
}

// Whether the records keep their rules and rise: each is compared with the one before it. Numbers start at 1, so every
// record comes after number 0 of origin 0.
fn in_order(msg: &[u8], count: usize, n: usize, m: Parts) -> bool
    requires { head_long + count * record_long ≤ length msg.now }
    ensures { result ≡ in_order (record_kind n (list_of m)) (parts_of count msg.now) }
{
    let mut last = (0, 0);
    for i in 0..count {
        let Ok(record) = record_at(msg, i, n, m) else {
            return false;
        };
        let next = (record.origin, record.number);
        if next <= last {
            return false;
        }
        last = next;
    }
    true
}

// The head, if the whole message is well formed.
pub fn read_gossip(msg: &[u8]) -> Result<Head, Refusal>
    ensures { says head_says result ≡ read_gossip msg.now }
{
    if msg.len() < HEAD_SIZE {
        return Err(Refusal::Bad);
    }
    let head = read_head(&msg[..HEAD_SIZE])?;
    let n = head.count as usize;
    if msg.len() != HEAD_SIZE + n * RECORD_SIZE
        || !in_order(msg, n, head.screens as usize, head.stamp)
    {
        return Err(Refusal::Bad);
    }
    Ok(head)
}

// How many records come before those of origin o.
fn count_below(msg: &[u8], count: usize, o: u64) -> usize
    requires { head_long + count * record_long ≤ length msg.now }
    ensures { (result ≡ below o (parts_of count msg.now)) × (result ≤ count) }
{
    let (records, _) = msg[HEAD_SIZE..].as_chunks::<RECORD_SIZE>();
    records[..count]
        .iter()
        .filter(|part| u64::from(part[ORIGIN]) < o)
        .count()
}

// The byte at which the records of origin o and above start.
#[tactic(auto, unfolding(crate::specs::Find::place_for))]
fn place(msg: &[u8], count: usize, o: u64) -> usize
    requires { head_long + count * record_long ≤ length msg.now }
    ensures { (result ≡ place_for o (parts_of count msg.now)) × (result ≤ length msg.now) }
{
    HEAD_SIZE + count_below(msg, count, o) * RECORD_SIZE
}

// The records of one origin, as the very part of the message that holds them; with none, or of bytes that are refused,
// the empty part at the end.
pub fn records_of(msg: &[u8], origin: u8) -> &[u8]
    ensures { Finds origin msg.entry result }
{
    let Ok(head) = read_gossip(msg) else {
        return &msg[msg.len()..];
    };
    let n = head.count as usize;
    let o = u64::from(origin);
    let a = place(msg, n, o);
    let e = place(msg, n, o + 1);
    if a == e {
        return &msg[msg.len()..];
    }
    &msg[a..e]
}
