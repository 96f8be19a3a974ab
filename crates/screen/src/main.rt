// A screen as a program: a loop that reads standard input, asks what to do next, and writes. Every decision is the
// library's.
#![tactic(auto)]

ghost use Rattle.std.specs.Prelude.{◌≤◌, length, IfOk};

use lent::BOOK;
use program::{Turn, next_turn};
use std::io;
use std::io::Read;
use wire::LONGEST;

// Reads until the buffer is full or the input ends; how many bytes came. An error is that of a read.
fn read_full<R: Read>(input: &mut R, buf: &mut [u8]) -> io::Result<usize>
    ensures { IfOk result (λ n. n ≤ length buf.new) }
{
    let mut done = 0;
    // Kept: a while, since each read says where the next begins, and `read_exact` tells no count where the input ends.
    while done < buf.len() {
        let came = input.read(&mut buf[done..])?;
        if came == 0 {
            break;
        }
        done += came;
    }
    Ok(done)
}

fn main(rt: HostRuntime) -> io::Result<()> {
    let mut input = rt.stdin();
    let mut book = [0u64; BOOK];
    let mut msg = [0u8; LONGEST];
    let mut out = [0u8; LONGEST];
    let mut have: usize = 0;
    let mut ended = false;
    let mut opened = false;
    // Every loop is proved to end: these are more turns than any input has bytes.
    for _ in 0..u64::MAX {
        match next_turn(&mut book, &msg[..have], ended, opened, &mut out) {
            Turn::Read(n) => {
                let got = read_full(&mut input, &mut msg[have..n])?;
                ended = got < n - have;
                have += got;
            }
            Turn::Say { said, .. } => {
                rt.write_all(&out[..said])?;
                have = 0;
                opened = true;
            }
            Turn::Last(said) => return rt.write_all(&out[..said]),
            Turn::Stop => return Ok(()),
        }
    }
    Ok(())
}
