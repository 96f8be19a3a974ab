// Plays the vectors of the file that its argument names: for each, whether document 01's small program writes just what
// is expected.
#![tactic(auto)]

mod play;

ghost use Rattle.std.specs.Prelude.{◌≡◌, ◌≤◌, length, IfOk};
ghost use Rattle.vectors.specs.File.{Inside, file_room};

use play::play;
use std::io::Read;
use std::{env, fs, io};
use vectors::compare::Differs;
use vectors::file::{Cut, FILE_ROOM, Vector, entry_at};

// A vector's line; whether it agrees.
fn print_line(rt: &impl Print, name: &[u8], outcome: Result<usize, Differs>) -> io::Result<bool> {
    rt.write_all(name)?;
    match outcome {
        Ok(_) => {
            println!(rt; " ok")?;
            Ok(true)
        }
        Err(Differs { at }) => {
            println!(rt; " differs at byte {at}")?;
            Ok(false)
        }
    }
}

fn print_total(rt: &impl Print, agreed: u64, total: u64) -> io::Result<()> {
    println!(rt; "{agreed} of {total} vectors agree")
}

fn print_cut(rt: &impl Print) -> io::Result<()> {
    println!(rt; "the file of vectors is cut")
}

// Runs one vector and writes its line; whether it agrees.
fn try_vector(rt: &impl Print, file: &[u8], vector: Vector) -> io::Result<bool>
    requires inside { Inside vector.name file.now }
    requires inside_2 { Inside vector.input file.now }
    requires inside_3 { Inside vector.output file.now }
{
    let Vector {
        name,
        input,
        output,
    } = vector;
    let outcome = play(
        &file[input.start..input.end],
        &file[output.start..output.end],
    );
    print_line(rt, &file[name.start..name.end], outcome)
}

// Every vector up to the file's end.
fn try_all(rt: &impl Print, file: &[u8]) -> io::Result<()> {
    let mut at = 0;
    let mut agreed: u64 = 0;
    let mut total: u64 = 0;
    // Kept: a loop, since each vector says where the next stands.
    loop {
        match entry_at(file, at) {
            Ok(Some(vector)) => {
                agreed += u64::from(try_vector(rt, file, vector)?);
                total += 1;
                at = vector.output.end;
            }
            Ok(None) => return print_total(rt, agreed, total),
            Err(Cut) => return print_cut(rt),
        }
    }
}

// Its contract gives only the length, so that no proof looks at each of the zeros.
fn room() -> [u8; FILE_ROOM]
    ensures { file_room ≡ length result }
{
    [0; FILE_ROOM]
}

// Reads until the buffer is full or the file ends; how many bytes came. An error is that of a read, and the buffer
// holds what came before it.
fn read_full<R: Read>(from: &mut R, buf: &mut [u8]) -> io::Result<usize>
    ensures { IfOk result (λ n. n ≤ length buf.new) }
{
    let mut done = 0;
    // Kept: a while, since each read says where the next begins, and `read_exact` tells no count where the file ends.
    while done < buf.len() {
        let came = from.read(&mut buf[done..])?;
        if came == 0 {
            break;
        }
        done += came;
    }
    Ok(done)
}

fn try_file<R: Read>(rt: &impl Print, from: &mut R) -> io::Result<()> {
    let mut file = room();
    let n = read_full(from, &mut file)?;
    try_all(rt, &file[..n])
}

fn main(rt: HostRuntime) -> io::Result<()> {
    let mut arguments = env::args(&rt)?;
    let Some(path) = arguments.nth(1) else {
        return eprintln!(rt; "the argument that names the file of vectors: Invalid argument");
    };
    match fs::open(&rt, path.as_str()) {
        Ok(mut file) => try_file(&rt, &mut file),
        Err(error) => eprintln!(rt; "{path}: {error}"),
    }
}
