// Bits written one behind the other, most significant first. Whole bytes are stored as they fill, so that the buffer is touched only where the plate stands.
ghost use Rattle.std.specs.Prelude.{◌≡◌, ℕ, [], ◌^◌, ◌≤◌, ◌<◌, get_or};
ghost use Rattle.plate.specs.Bits.{bits_of};

// How many whole bytes are written, and the bits that are not yet a byte: their number and how many they are.
#[derive(Clone, Copy)]
pub struct Pen {
    pub bytes: usize,
    pub begun: u64,
    pub count: usize,
    pub ghost part: { count < 8 },
    pub ghost held: { begun < 2 ^ count },
}

// A buffer, and the pen that writes into it.
#[derive(Drop)]
pub struct Sheet<'a> {
    pub out: &'a mut [u8],
    pub pen: Pen,
    pub ghost stored: { (k : ℕ) → get_or out.now k 0 < 256 },
}

impl<'a> Sheet<'a> {
    ghost use Rattle.book.specs.Pen.{Begins, Ready, Wrote, Finished};

    // Nothing is written yet.
    pub fn new(out: &'a mut [u8]) -> Sheet<'a>
        ensures same { result.out.ghost_name ≡ out.entry.ghost_name }
        ensures begins { Begins out.old result }
    {
        let pen = Pen {
            bytes: 0,
            begun: 0,
            count: 0,
        };
        Sheet { out, pen }
    }

    // A number in so many bits.
    pub(crate) fn put(&mut self, width: usize, number: u64)
        requires { (width ≤ 24) × (number < 2 ^ width) × Ready self.old (bits_of width number) }
        ensures { Wrote self.old (bits_of width number) self.new }
    {
        let mut begun = self.pen.begun * (1u64 << width) + number;
        let mut count = self.pen.count + width;
        let mut at = self.pen.bytes;
        // Stays: it turns while a whole byte is held, which is what the test says.
        while 8 <= count {
            count -= 8;
            self.out[at] = (begun >> count) as u8;
            begun = begun % (1u64 << count);
            at += 1;
        }
        self.pen = Pen {
            bytes: at,
            begun,
            count,
        };
    }

    // 01: "Zero bits fill the last byte." How many bytes there are then; the pen stands behind them.
    pub fn finish(&mut self) -> usize
        requires { Ready self.old [] }
        ensures { Finished self.old self.new result }
    {
        self.put(7 - (self.pen.count + 7) % 8, 0);
        self.pen.bytes
    }
}
