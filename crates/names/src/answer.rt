// The answer on one name.
use front::out::Out;
use front::rooms::CODES_ROOM;
use front::show::Name;
use front::status::Status;
use front::words::{NameRefusal, RefusedName};
use zengilvar::{dm_encode, dm_list};

// All codes of a name, or one, the first.
#[derive(Clone, Copy, PartialEq, Eq)]
pub enum Codes {
    All,
    First,
}

// How a name is answered: by its codes, with the name in front where that is asked; or by shelf and search codes, as the desk does.
#[derive(Clone, Copy, PartialEq, Eq)]
pub enum Way {
    List { codes: Codes, named: bool },
    Desk,
}

// How names are answered, and by which plate.
#[derive(Clone, Copy)]
pub struct Answering<'a> {
    pub plate: &'a [u8],
    pub way: Way,
}

// The bytes of so many codes, a bar between two.
fn codes_length(count: u64) -> usize {
    count.saturating_mul(7).saturating_sub(1) as usize
}

// The codes of a name in the room for them, or why it was refused.
pub(crate) fn coded<'r, 'n>(
    plate: &[u8],
    name: &'n [u8],
    codes: Codes,
    room: &'r mut [u8],
) -> Result<&'r [u8], RefusedName<'n>> {
    let r = match codes {
        Codes::All => dm_list(plate, name, room),
        Codes::First => dm_encode(plate, name, room),
    };
    match NameRefusal::of(r.number) {
        Some(refusal) => Err(RefusedName {
            refusal,
            name,
            place: r.place as usize,
        }),
        None => Ok(room.get(..codes_length(r.count)).unwrap_or_default()),
    }
}

// A refusal on standard error, behind all that was answered before.
fn tell_refused(out: &mut Out<'_>, refused: RefusedName<'_>) {
    out.flush();
    let name = Name(refused.name);
    let number = refused.refusal.number();
    let caret = refused.caret();
    out.host()
        .tell(format_args!("{name}: {number}: {refused}\n{caret}"));
    out.worsen(Status::Refused);
}

// A refusal within an answer.
fn put_refused(out: &mut Out<'_>, refused: RefusedName<'_>) {
    let number = refused.refusal.number();
    let caret = refused.caret();
    out.say(format_args!("refused, {refused} ({number})\n{caret}"));
    out.worsen(Status::Refused);
}

// The shelf, and what stands in front of the codes to search under.
fn put_shelf(out: &mut Out<'_>, codes: &[u8]) {
    out.put(b"shelf ");
    out.put(codes.get(..codes_length(1)).unwrap_or(codes));
    out.put(b", search ");
}

impl Answering<'_> {
    // The codes, behind the name where that is asked.
    fn list_line(self, out: &mut Out<'_>, name: &[u8], codes: Codes, named: bool) {
        let mut room = [0; CODES_ROOM];
        match coded(self.plate, name, codes, &mut room) {
            Err(refused) => tell_refused(out, refused),
            Ok(codes) => {
                if named {
                    out.put_name(Name(name));
                    out.put(b"\t");
                }
                out.put(codes);
                out.put(b"\n");
            }
        }
    }

    // The shelf alone, where the codes to search under are refused: encode answers.
    fn put_shelf_alone(self, out: &mut Out<'_>, listed: RefusedName<'_>) {
        let mut room = [0; CODES_ROOM];
        match coded(self.plate, listed.name, Codes::First, &mut room) {
            Err(refused) => put_refused(out, refused),
            Ok(code) => {
                put_shelf(out, code);
                put_refused(out, listed);
            }
        }
    }

    // The shelf and the codes to search under.
    fn desk_line(self, out: &mut Out<'_>, name: &[u8]) {
        out.put_name(Name(name));
        out.put(b": ");
        let mut room = [0; CODES_ROOM];
        match coded(self.plate, name, Codes::All, &mut room) {
            Err(refused) if refused.refusal == NameRefusal::Branches => {
                self.put_shelf_alone(out, refused)
            }
            Err(refused) => put_refused(out, refused),
            Ok(codes) => {
                put_shelf(out, codes);
                out.put(codes);
                out.put(b"\n");
            }
        }
    }

    pub fn answer(self, out: &mut Out<'_>, name: &[u8]) {
        match self.way {
            Way::List { codes, named } => self.list_line(out, name, codes, named),
            Way::Desk => self.desk_line(out, name),
        }
    }
}
