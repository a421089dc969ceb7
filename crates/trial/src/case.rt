// A case, which is a line: its letter and its fields stand in front of its first semicolon, one space between two, its bytes behind it.
ghost use Rattle.std.specs.Prelude.{◌<◌, ◌≤◌, IfSome, length};
ghost use Rattle.std.specs.Iterator.{at_most};

// More than any number of a case.
const LIMIT: usize = 100000;

#[derive(Clone, Copy)]
pub struct Case<'a> {
    pub line: &'a [u8],
}

impl<'a> Case<'a> {
    // A line of a file, with the newline that ends it or without.
    pub fn new(line: &'a [u8]) -> Case<'a> {
        Case {
            line: line.strip_suffix(b"\n").unwrap_or(line),
        }
    }

    // The letter in front of the first space.
    pub fn letter(&self) -> Option<u8> {
        match self.line {
            [letter, b' ', ..] => Some(*letter),
            _ => None,
        }
    }

    fn head(&self) -> &'a [u8]
        ensures { length result.now ≤ length self.now.line.now }
    {
        self.line
            .split(|byte| *byte == b';')
            .next()
            .unwrap_or(self.line)
    }

    // A field, the letter being field 0; nothing, if there is no such field.
    pub fn field(&self, k: usize) -> &'a [u8]
        ensures { length result.now ≤ length self.now.line.now }
    {
        self.head()
            .split(|byte| *byte == b' ')
            .nth(k)
            .unwrap_or(&[])
    }

    // All that stands between the letter and the semicolon.
    pub fn title(&self) -> &'a [u8]
        ensures { length result.now ≤ length self.now.line.now }
    {
        let head = self.head();
        match head.iter().position(|byte| *byte == b' ') {
            Some(space) => &head[space + 1..],
            None => &[],
        }
    }

    // The number that a field writes in decimal digits.
    pub fn number(&self, k: usize) -> Option<usize>
        ensures { IfSome result (λ n. n < 100000) }
    {
        let field = self.field(k);
        if !field.iter().all(|byte| byte.is_ascii_digit()) {
            return None;
        }
        let number = str::from_utf8(field).ok()?.parse().ok()?;
        if number < LIMIT { Some(number) } else { None }
    }

    // What stands behind the semicolon and the space that follows it; nothing, if the line ends with the semicolon.
    fn tail(&self) -> Option<&'a [u8]> {
        let end = self.line.iter().position(|byte| *byte == b';')?;
        match &self.line[end + 1..] {
            [] => Some(&[]),
            [b' ', tail @ ..] => Some(tail),
            _ => None,
        }
    }

    // The bytes, of which room takes as many as it has; none, if the line has another form or they do not fit.
    pub fn bytes<'b>(&self, room: &'b mut [u8]) -> Option<&'b [u8]>
        ensures { IfSome result (λ bytes. length bytes.now ≤ length room.old) }
    {
        let mut n = 0;
        for byte in Bytes(self.tail()?) {
            *room.get_mut(n)? = byte?;
            n += 1;
        }
        room.get(..n)
    }
}

// A backslash and two hexadecimal digits stand for one byte, every other byte for itself. None is a backslash with no two digits behind it.
#[derive(Drop)]
struct Bytes<'a>(&'a [u8]);

impl Iterator for Bytes<'_> {
    type Item = Option<u8>;

    ghost remaining = { λ s. at_most (length s.0.now) };

    fn next(&mut self) -> Option<Option<u8>> {
        let (byte, rest) = match self.0 {
            [] => return None,
            [b'\\', high, low, rest @ ..] => (byte_of(*high, *low), rest),
            [b'\\', rest @ ..] => (None, rest),
            [byte, rest @ ..] => (Some(*byte), rest),
        };
        self.0 = rest;
        Some(byte)
    }
}

// The byte that two hexadecimal digits write.
fn byte_of(high: u8, low: u8) -> Option<u8> {
    let high = char::from(high).to_digit(16)?;
    let low = char::from(low).to_digit(16)?;
    u8::try_from(16 * high + low).ok()
}
