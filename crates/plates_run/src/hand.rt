// Plates written by hand, bit by bit: those that no text builds.
ghost use Rattle.std.specs.Prelude.{◌*◌, ◌≤◌, length};

use super::judge::show;
use std::io;
use trial::say::sum;

#[derive(Clone, Copy)]
pub(crate) enum Edition {
    One,
    Two,
}

// Bits behind those that are written, over cleared ones.
#[derive(Drop)]
struct Pen<'a> {
    plate: &'a mut [u8],
    bits: usize,
    ghost in_plate: { bits ≤ 8 * length plate.now },
}

impl Pen<'_> {
    // A bit, where the plate has room for it.
    fn put_bit(&mut self, is_set: bool) {
        if let Some(byte) = self.plate.get_mut(self.bits / 8) {
            if is_set {
                *byte |= 128 >> (self.bits % 8);
            }
            self.bits = self.bits.saturating_add(1);
        }
    }

    // A number in so many bits.
    fn put(&mut self, width: u32, value: u64)
        requires { width ≤ 64 }
    {
        for place in (0..width).rev() {
            self.put_bit(value >> place & 1 == 1);
        }
    }

    fn put_head(&mut self, edition: Edition, rules: u16, foldings: u8) {
        let (number, width) = match edition {
            Edition::One => (1, 10),
            Edition::Two => (2, 11),
        };
        self.put(8, number);
        self.put(width, u64::from(rules));
        self.put(8, u64::from(foldings));
        let is_folding = true;
        self.put_bit(is_folding);
        self.put(15 - width, 0);
    }

    // Foldings to `a` of the keys from U+0100 on.
    fn put_foldings(&mut self, n: u8) {
        for k in 0..n {
            self.put(21, 0x100 + u64::from(k));
            self.put(21, u64::from(b'a'));
        }
    }

    // A pattern of 16 bytes, two that rise with the number, from `A` and from `a` on, and fourteen times `n`.
    fn put_pattern(&mut self, k: u16) {
        self.put(5, 16);
        self.put(8, u64::from(b'A') + u64::from(k / 26));
        self.put(8, u64::from(b'a') + u64::from(k % 26));
        for _ in 0..14 {
            self.put(8, u64::from(b'n'));
        }
    }

    // Eight alternatives of six digits.
    fn put_field(&mut self) {
        self.put(4, 8);
        for _ in 0..8 {
            self.put(3, 6);
            self.put(24, 0x987654);
        }
    }

    fn put_rules(&mut self, n: u16) {
        for k in 0..n {
            self.put_pattern(k);
            for _ in 0..3 {
                self.put_field();
            }
        }
    }

    fn put_plate(&mut self, edition: Edition, rules: u16) {
        self.put_head(edition, rules, 128);
        self.put_foldings(128);
        self.put_rules(rules);
    }

    fn written(&self) -> &[u8] {
        &self.plate[..self.bits.div_ceil(8)]
    }
}

// So many foldings, at the limit and over it.
pub(crate) fn show_foldings(rt: &impl Print, n: u8) -> io::Result<()> {
    let mut pen = Pen {
        plate: &mut [0; 1000],
        bits: 0,
    };
    pen.put_head(Edition::One, 0, n);
    pen.put_foldings(n);
    print!(rt; "{n}")?;
    show(rt, b" foldings", pen.written())
}

fn show_length(rt: &impl Print, plate: &[u8]) -> io::Result<()> {
    print!(rt; "{}", plate.len())?;
    show(rt, b" bytes", plate)
}

// The largest plate of an edition, and then a byte less of it, and a byte more, which the room has.
pub(crate) fn show_largest(
    rt: &impl Print,
    room: &mut [u8],
    edition: Edition,
    rules: u16,
) -> io::Result<()> {
    let mut pen = Pen {
        plate: room,
        bits: 0,
    };
    pen.put_plate(edition, rules);
    let plate = pen.written();
    println!(rt; "{} bits\n sum {:08x}", pen.bits, sum(plate))?;
    show_length(rt, plate)?;
    if let [shorter @ .., _] = plate {
        show_length(rt, shorter)?;
    }
    show_length(rt, room)
}
