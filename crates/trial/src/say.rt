// What a program writes: bytes, their sum, and a line that it cannot take.
use std::fmt;

// Each byte as two hexadecimal digits, a space before it.
#[derive(Clone, Copy)]
pub struct Hex<'a>(pub &'a [u8]);

impl fmt::Display for Hex<'_> {
    fn fmt<W: fmt::Write>(&self, f: &mut fmt::Formatter<W>) -> fmt::Result {
        for byte in self.0 {
            write!(f, " {byte:02x}")?;
        }
        Ok(())
    }
}

// A sum over the bytes and their places (Adler-32), for those too many to be written out.
pub fn sum(bytes: &[u8]) -> u64 {
    let mut low: u64 = 1;
    let mut high: u64 = 0;
    for byte in bytes {
        low = (low + u64::from(*byte)) % 65521;
        high = (high + low) % 65521;
    }
    high * 65536 + low
}

// A line that has none of the forms of its file. What cannot be written is missed by who compares what was.
pub fn fault(rt: &impl Print, line: &[u8]) {
    let _ = print!(rt; "FAULT: ");
    let _ = rt.write_all(line);
    let _ = println!(rt);
}
