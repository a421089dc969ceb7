// Bytes kept in a file as careful tools do: under a fresh name beside the real file, which then takes its name, with its mode and owner; a full disk or a
// pulled plug leaves what was there. Links stay. A device or a pipe is written to. Never over the input.
use super::facts::is_same;
use super::links::{Made, is_link, is_open, lay_beside, resolve};
use super::path::FilePath;
use super::read::not_open;
use super::system::{create, open_append, rename, unlink};
use front::status::Status;
use std::fs::{File, Metadata, Permissions};
use std::io::{Error, ErrorKind, Result, Write};
use std::os::unix::fs::{MetadataExt, PermissionsExt, fchown};
use std::random::RandomSource;

// The bits of a mode that fchmod takes.
const PERMISSIONS: u32 = 0o7777;

// How many letters a fresh name has.
const LETTERS: usize = 16;

// A name that no other run takes: `.new-` and random letters. The file is made only where nobody has one of this name.
fn fresh_name(rt: &HostRuntime) -> [u8; 21] {
    let mut random = [0u8; LETTERS];
    let _ = rt.fill_bytes(&mut random);
    let mut name = *b".new-................";
    for (place, b) in name[5..].iter_mut().zip(random) {
        *place = b'a' + b % 16;
    }
    name
}

// A file that was there.
#[derive(Clone, Copy)]
struct Was<'a> {
    file: &'a File,
    facts: &'a Metadata,
}

// A file as it was: its owner, where the system allows it, and its mode.
fn dress(file: &File, was: &Metadata) -> Result<()> {
    let is_owned = match file.metadata() {
        Ok(is) => is.uid() == was.uid() && is.gid() == was.gid(),
        Err(_) => was.uid() == 0 && was.gid() == 0,
    };
    if !is_owned {
        let _ = fchown(file, Some(was.uid()), Some(was.gid()));
    }
    file.set_permissions(Permissions::from_mode(was.mode() & PERMISSIONS))
}

// All bytes to a file.
fn write_all(file: &File, bytes: &[u8]) -> Result<()> {
    let mut to: &File = file;
    to.write_all(bytes)
}

// What is to be kept.
#[derive(Clone, Copy)]
struct Keeping<'a> {
    path: FilePath<'a>,
    bytes: &'a [u8],
}

impl Keeping<'_> {
    fn ended(self, done: Result<()>) -> Status {
        match done {
            Ok(()) => Status::Answered,
            Err(error) => self.path.fault(error),
        }
    }

    // The bytes whole and on the disk, under the name that the file is to have.
    fn put_in_place(
        self,
        real: &[u8],
        new: &[u8],
        file: &File,
        was: Option<Was<'_>>,
    ) -> Result<()> {
        write_all(file, self.bytes)?;
        if let Some(was) = was {
            dress(file, was.facts)?;
        }
        file.sync_all()?;
        rename(&self.path.host.rt, new, real)
    }

    // Writes the new file and lets it take the name.
    fn replace_by(self, real: &[u8], new: &[u8], was: Option<Was<'_>>) -> Status {
        let file = match create(&self.path.host.rt, new) {
            Ok(file) => file,
            Err(error) => return self.path.fault(error),
        };
        let done = self.put_in_place(real, new, &file, was);
        drop(file);
        let is_done = done.is_ok();
        let status = self.ended(done);
        if !is_done {
            let _ = unlink(&self.path.host.rt, new);
        }
        status
    }

    // Where there is no room for the name, the system is asked for none, and tells that there is none.
    fn replace(self, real: &[u8], was: Option<Was<'_>>) -> Status {
        let name = fresh_name(&self.path.host.rt);
        let mut new = Made::new();
        if !lay_beside(real, &name, &mut new) {
            new.clear();
        }
        self.replace_by(real, new.as_slice(), was)
    }

    // Whether a path without links leads to the file that was there, if there was one.
    fn is_real(self, real: &[u8], was: Option<Was<'_>>) -> bool {
        let rt = &self.path.host.rt;
        if is_link(rt, real) {
            return false;
        }
        let Some(was) = was else {
            return true;
        };
        open_append(rt, real)
            .and_then(|file| file.metadata())
            .is_ok_and(|is| is_same(was.facts, &is))
    }

    // The real file of the path, behind its links. What this process has open is written to, at its end.
    fn keep_behind(self, was: Option<Was<'_>>) -> Status {
        let mut real = Made::new();
        if real.try_extend_from_slice(self.path.bytes).is_ok() {
            resolve(&self.path.host.rt, &mut real);
        }
        if is_open(real.as_slice()) {
            return self.write_to_device(was.map(|was| was.file));
        }
        if !self.is_real(real.as_slice(), was) {
            return self
                .path
                .fault_for("the file behind its links is not found");
        }
        self.replace(real.as_slice(), was)
    }

    // Where nothing is open, bytes cannot be written.
    fn write_to_device(self, file: Option<&File>) -> Status {
        if self.bytes.is_empty() {
            return Status::Answered;
        }
        self.ended(match file {
            Some(file) => write_all(file, self.bytes),
            None => Err(not_open()),
        })
    }

    // What stands at the path already is a file, or a device or a pipe.
    fn keep_over(self, file: &File, input: Option<&Metadata>) -> Status {
        let Ok(facts) = file.metadata() else {
            return self.write_to_device(Some(file));
        };
        if input.is_some_and(|input| is_same(&facts, input)) {
            return self
                .path
                .fault_for("this is the file that is read, and is not written over");
        }
        if facts.is_file() {
            return self.keep_behind(Some(Was {
                file,
                facts: &facts,
            }));
        }
        self.write_to_device(Some(file))
    }

    // No file could be opened at the path. Where none is there, one is made.
    fn keep_new(self, error: Error) -> Status {
        match error.kind() {
            ErrorKind::NotFound => self.keep_behind(None),
            _ => self.path.fault(error),
        }
    }
}

impl FilePath<'_> {
    // Keeps bytes in the file. `-` is standard output. `input` is what is known of the file that they were made from.
    pub fn keep(self, bytes: &[u8], input: Option<&Metadata>) -> Status {
        let host = self.host;
        if self.is_dash() {
            return match Print::write_all(&host.rt.stdout(), bytes) {
                Ok(()) => Status::Answered,
                Err(error) => host.fault("standard output", error),
            };
        }
        let keeping = Keeping { path: self, bytes };
        match open_append(&host.rt, self.bytes) {
            Ok(file) => keeping.keep_over(&file, input),
            Err(error) => keeping.keep_new(error),
        }
    }
}
