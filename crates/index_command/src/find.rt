// The records that share a code with each name, a line each. The index is read anew for each name: its room is that of the names that are shown with them.
use super::grow::LISTED;
use super::kept::{no_path, read_index};
use super::unfit::{NUMBER, Unfit};
use super::{Asked, odd_place};
use entries::MOST_RECORDS;
use files::path::FilePath;
use front::arguments::Arguments;
use front::options::{Kind, value, word};
use front::out::Out;
use front::rooms::WORD_ROOM;
use front::show::Name;
use front::status::Status;
use names::answer::Answering;
use names::lines::Lines;
use std::rt::Env;
use zengilvar::DmWritten;
use zengilvar::code_index::dm_index_find;

// All records, two bytes each.
const RECORDS_ROOM: usize = 8192;

// The number of the refusal of a room that is too short.
const SHORT_ROOM: u64 = 9;

// What names are looked up in, whether there are several, and the file of the names that are shown with the records.
#[derive(Clone, Copy)]
pub(crate) struct Search<'a> {
    pub plate: &'a [u8],
    pub index: FilePath<'a>,
    pub several: bool,
    pub names: Option<FilePath<'a>>,
}

// The records of a name that was asked for, of two bytes each.
#[derive(Clone, Copy)]
struct Records<'a> {
    name: Option<Name<'a>>,
    found: &'a [[u8; 2]],
}

impl Records<'_> {
    // The name that was asked for, where there are several, and a record's number.
    fn put_front(self, out: &mut Out<'_>, record: u16) {
        if let Some(name) = self.name {
            out.put_name(name);
            out.put(b"\t");
        }
        out.say(record);
    }

    fn put(self, out: &mut Out<'_>) {
        for record in self.found {
            self.put_front(out, u16::from_be_bytes(*record));
            out.put(b"\n");
        }
    }

    // The same with each record's own name, a line of a file; whether the file has them all.
    fn put_named(self, out: &mut Out<'_>, lines: &mut Lines<'_>) -> Result<bool, Status> {
        let mut left = self.found;
        for record in 0..MOST_RECORDS as u16 {
            let Some((next, behind)) = left.split_first() else {
                break;
            };
            if lines.is_ended() {
                break;
            }
            let Some(name) = lines.next()? else {
                break;
            };
            if u16::from_be_bytes(*next) == record {
                self.put_front(out, record);
                out.put(b"\t");
                out.put_name(Name(name));
                out.put(b"\n");
                left = behind;
            }
        }
        Ok(left.is_empty())
    }

    // Where it does not, that is told: it is not the file of the index.
    fn put_by_file(
        self,
        out: &mut Out<'_>,
        names: FilePath<'_>,
        chunk: &mut [u8],
    ) -> Result<(), Status> {
        let source = names.open()?;
        let mut lines = Lines::new(names, source, chunk);
        if self.put_named(out, &mut lines)? {
            return Ok(());
        }
        Err(names.fault_for("there are fewer names than the index has"))
    }
}

impl<'a> Search<'a> {
    fn new(
        plate: &'a [u8],
        index: FilePath<'a>,
        several: bool,
        names: Option<FilePath<'a>>,
    ) -> Search<'a> {
        Search {
            plate,
            index,
            several,
            names,
        }
    }

    // What the library answers of a name. The index is read into a room that is then free.
    fn ask(self, text: &mut [u8], name: &[u8], room: &mut [u8]) -> Result<DmWritten, Status> {
        let index = read_index(self.index, text)?;
        Ok(dm_index_find(self.plate, index, name, room))
    }

    // Whether the file is an index. The empty name is refused by none, and that its records have no room is told last.
    fn is_index(self, text: &mut [u8]) -> Result<bool, Status> {
        let r = self.ask(text, b"", &mut [])?;
        Ok(matches!(r.number, 0 | SHORT_ROOM))
    }

    // The records of a name, where list does not refuse it.
    fn look_up<'b>(
        self,
        text: &mut [u8],
        name: &[u8],
        room: &'b mut [u8],
    ) -> Result<Option<&'b [[u8; 2]]>, Status> {
        let r = self.ask(text, name, room)?;
        match r.number {
            0 => {
                let found = room.get(..r.length as usize).unwrap_or_default();
                Ok(Some(found.as_chunks::<2>().0))
            }
            NUMBER => Err(Unfit::Damaged.tell(self.index)),
            _ => Ok(None),
        }
    }

    // As dm list refuses it.
    fn refuse(self, out: &mut Out<'_>, name: &[u8]) {
        let plate = self.plate;
        Answering { plate, way: LISTED }.answer(out, name);
    }

    fn find(self, out: &mut Out<'_>, text: &mut [u8], name: &[u8]) -> Result<(), Status> {
        let mut room = [0; RECORDS_ROOM];
        let Some(found) = self.look_up(text, name, &mut room)? else {
            self.refuse(out, name);
            return Ok(());
        };
        let records = Records {
            name: self.several.then_some(Name(name)),
            found,
        };
        match self.names {
            Some(names) => records.put_by_file(out, names, text)?,
            None => records.put(out),
        }
        Ok(())
    }
}

impl Asked<'_> {
    // The file that --names names.
    fn named_file<'b>(self, room: &'b mut [u8]) -> Result<Option<FilePath<'b>>, Status> {
        let Some(i) = self.scan.names else {
            return Ok(None);
        };
        let path = FilePath::given(self.host, "--names", value(&self.host.rt, i, room))?;
        if path.is_dash() {
            return Err(
                self.host
                    .misused("the names of an index are a file, and not -"),
            );
        }
        Ok(Some(path))
    }

    // The names are the arguments from a place on. Of one that is longer than its room the front is refused for the same reason as the whole.
    fn find_words(self, search: Search<'_>, out: &mut Out<'_>, text: &mut [u8]) {
        for (i, scan) in Arguments::of(self.host) {
            if out.status() == Status::Fault {
                break;
            }
            if scan.kind == Kind::Operand && self.fourth <= i {
                let mut room = [0; WORD_ROOM];
                match self.host.rt.arg(i, &mut room) {
                    Ok(n) => {
                        if let Err(status) = search.find(out, text, &room[..n]) {
                            out.worsen(status);
                        }
                    }
                    Err(_) => search.refuse(out, &room),
                }
            }
        }
    }

    pub(crate) fn find(self, text: &mut [u8], out: &mut [u8]) -> Result<Status, Status> {
        let host = self.host;
        let mut index = [0; WORD_ROOM];
        let mut room = [0; WORD_ROOM];
        let index = match word(&host.rt, self.third, &mut index) {
            Ok(b"-") | Err(_) => return Err(no_path(host)),
            Ok(bytes) => FilePath::new(host, bytes),
        };
        let names = self.named_file(&mut room)?;
        let several = odd_place(host, self.scan, true).is_some();
        let search = Search::new(self.plate, index, several, names);
        // Asked once before the names.
        if !search.is_index(text)? {
            return Err(Unfit::Damaged.tell(index));
        }
        let mut out = Out::answers(host, out);
        self.find_words(search, &mut out, text);
        Ok(out.finish())
    }
}
