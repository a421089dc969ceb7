// One call and its answer compared: number, count, each byte that it writes and each that it must leave, in a buffer of the line's own length.
use trial::case::Case;
use trial::lent::{is_lent_from, lend, written};
use trial::say::fault;
use zengilvar::{DmCoded, dm_encode, dm_list};

// What a line calls.
#[derive(Clone, Copy)]
enum Call {
    Encode,
    List,
    // List, and then the last byte lent is changed, so that the test of the bytes behind is seen to fail.
    SpoiledList,
}

impl Call {
    fn of(letter: u8) -> Option<Call> {
        match letter {
            b'e' => Some(Call::Encode),
            b'l' => Some(Call::List),
            b'x' => Some(Call::SpoiledList),
            _ => None,
        }
    }

    fn make(self, plate: &[u8], name: &[u8], out: &mut [u8]) -> DmCoded {
        if let Call::Encode = self {
            return dm_encode(plate, name, out);
        }
        let coded = dm_list(plate, name, out);
        if let Call::SpoiledList = self
            && let Some(last) = out.last_mut()
        {
            *last = 0;
        }
        coded
    }
}

#[derive(Clone, Copy, PartialEq, Eq)]
struct Answer<'a> {
    number: u64,
    count: u64,
    codes: &'a [u8],
}

impl<'a> Answer<'a> {
    // What the fields of a line say, `-` of no codes; none, where one of them has another form.
    fn said(case: Case<'a>) -> Option<Answer<'a>> {
        let codes = match case.field(4) {
            b"-" => &[],
            [] => return None,
            codes => codes,
        };
        Some(Answer {
            number: case.number(2)? as u64,
            count: case.number(3)? as u64,
            codes,
        })
    }
}

// What a line's call answered, and all that was lent to it.
#[derive(Clone, Copy)]
struct Came<'a> {
    coded: DmCoded,
    out: &'a [u8],
}

impl<'a> Came<'a> {
    // None, where the line has another form. A whole file fits the room for the name.
    fn of(case: Case, plate: Option<&[u8]>, room: &'a mut [u8]) -> Option<Came<'a>> {
        let call = Call::of(case.letter()?)?;
        let out = room.get_mut(..case.number(1)?)?;
        let mut name = [0; 65536];
        let name = case.bytes(&mut name)?;
        lend(out);
        let coded = call.make(plate?, name, out);
        Some(Came { coded, out })
    }

    fn answer(&self) -> Answer<'a> {
        Answer {
            number: self.coded.number,
            count: self.coded.count,
            codes: written(self.out),
        }
    }

    fn is_rest_lent(&self) -> bool {
        is_lent_from(self.out, written(self.out).len())
    }

    fn is_right(&self, case: Case) -> bool {
        self.is_rest_lent() && Answer::said(case) == Some(self.answer())
    }

    fn show(&self, rt: &impl Print) {
        let _ = print!(rt; "  came {} {} ", self.coded.number, self.coded.count);
        let _ = match written(self.out) {
            [] => print!(rt; "-"),
            codes => rt.write_all(codes),
        };
        if !self.is_rest_lent() {
            let _ = print!(rt; " and bytes behind not as lent");
        }
        let _ = println!(rt);
    }
}

// Whether a line's call gives its answer; if not, the line is shown, and what came instead.
pub(crate) fn is_answered(rt: &impl Print, case: Case, plate: Option<&[u8]>) -> bool {
    let mut out = [0; 4096];
    let came = Came::of(case, plate, &mut out);
    if came.is_some_and(|came| came.is_right(case)) {
        return true;
    }
    fault(rt, case.line);
    if let Some(came) = came {
        came.show(rt);
    }
    false
}
