// The plate by which names are coded: that of a file, or the standard rules'.
use super::answer::{Codes, coded};
use files::path::FilePath;
use front::host::Host;
use front::options::value;
use front::rooms::{CODES_ROOM, WORD_ROOM};
use front::show::Text;
use front::status::Status;
use standard::standard_plate;

// The programs take plates up to so many bytes; the library takes any.
const PLATE_MOST: usize = 65536;

// The plate of a file. The empty name is coded by every plate.
fn from_path<'a>(path: FilePath<'_>, into: &'a mut [u8]) -> Result<&'a [u8], Status> {
    let plate = path.read(into)?;
    let shown = Text(path.bytes);
    if PLATE_MOST < plate.len() {
        path.host.tell(format_args!(
            "{shown}: the plate has over 65,536 bytes; such a plate is for the library alone\n"
        ));
        return Err(Status::Refused);
    }
    let mut room = [0; CODES_ROOM];
    if let Err(refused) = coded(plate, b"", Codes::First, &mut room) {
        let number = refused.refusal.number();
        path.host
            .tell(format_args!("{shown}: {number}: {refused}\n"));
        return Err(Status::Refused);
    }
    Ok(plate)
}

// Lays the standard rules' plate at the front of the room.
fn standard(into: &mut [u8]) -> &[u8] {
    let plate = standard_plate();
    match into.get_mut(..plate.len()) {
        Some(front) => {
            front.copy_from_slice(&plate);
            front
        }
        None => b"",
    }
}

// Whether the option at a place names standard input, which is then read to its end for the plate.
pub fn is_input(host: Host, option: Option<usize>) -> bool {
    let mut room = [0; WORD_ROOM];
    match option {
        Some(i) => value(&host.rt, i, &mut room).is_ok_and(|path| matches!(path, b"-")),
        None => false,
    }
}

// The plate that the option at a place names, or the standard rules' where there is none.
pub fn load<'a>(host: Host, option: Option<usize>, into: &'a mut [u8]) -> Result<&'a [u8], Status> {
    let Some(i) = option else {
        return Ok(standard(into));
    };
    let mut room = [0; WORD_ROOM];
    match value(&host.rt, i, &mut room) {
        Ok(path) => from_path(FilePath::new(host, path), into),
        Err(error) => Err(host.fault("--plate", error)),
    }
}
