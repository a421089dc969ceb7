// Bytes are judged, whole or one bit at a time.
use plate::accept::accept;
use std::io;

pub(crate) fn show(rt: &impl Print, name: &[u8], bytes: &[u8]) -> io::Result<()> {
    let verdict = if accept(bytes) {
        "accepted"
    } else {
        "no plate"
    };
    rt.write_all(name)?;
    println!(rt; ": {verdict}")
}

// A row of eight letters for each byte: whether the bytes are still a plate (y) or not (n) with one of its bits turned over, which is then turned back.
pub(crate) fn show_bits(rt: &impl Print, plate: &mut [u8]) -> io::Result<()> {
    // Stays: all the bytes are judged at each bit, so that no iterator can hold them.
    for i in 0..plate.len() {
        print!(rt; " ")?;
        for bit in 0u32..8 {
            plate[i] ^= 128 >> bit;
            print!(rt; "{}", if accept(plate) { 'y' } else { 'n' })?;
            plate[i] ^= 128 >> bit;
        }
    }
    println!(rt)
}
