// Reading a whole file.
ghost use Rattle.std.specs.Prelude.{◌≤◌, length};

use super::say::fault;
use std::fs::File;
use std::io;
use std::io::{Error, Read, Write};
use std::rt::Files;

// Why a path cannot be opened, in the system's words. std writes its number in brackets behind them, which is left out.
fn show_error(rt: &impl Eprint, path: &str, error: Error) -> io::Result<()> {
    let mut text = [0u8; 128];
    let _ = write!(&mut text[..], "{error}");
    let words = text
        .split(|byte| matches!(byte, b'(' | 0))
        .next()
        .unwrap_or(&[]);
    let words = str::from_utf8(words.trim_ascii_end()).unwrap_or("");
    eprintln!(rt; "{path}: {words}")
}

// Reads until the room is full, the file ends or a read fails; how many bytes.
fn fill(file: &mut impl Read, room: &mut [u8]) -> usize
    ensures { result ≤ length room.new }
{
    let mut done = 0;
    for _turn in 0..room.len() {
        match file.read(&mut room[done..]) {
            Ok(0) | Err(_) => break,
            Ok(n) => done += n,
        }
    }
    done
}

fn read_at<'a>(rt: &(impl Files + Print + Eprint), path: &str, room: &'a mut [u8]) -> &'a [u8]
    ensures { length result.now ≤ length room.old }
{
    match File::open(rt, path) {
        Ok(file) => {
            let mut file = file;
            let n = fill(&mut file, room);
            if n < room.len() {
                return &room[..n];
            }
            fault(rt, path.as_bytes());
        }
        Err(error) => {
            let _ = show_error(rt, path, error);
        }
    }
    &[]
}

// The whole of a file at once; nothing, and a word of it, if it cannot be read. One that fills the room may go on behind it, so it is not taken. A path that
// is no UTF-8 cannot be given to std.
pub fn read<'a>(rt: &(impl Files + Print + Eprint), path: &[u8], room: &'a mut [u8]) -> &'a [u8]
    ensures { length result.now ≤ length room.old }
{
    let Ok(text) = str::from_utf8(path) else {
        fault(rt, path);
        return &[];
    };
    read_at(rt, text, room)
}
