// An input read in blocks: its whole lines are coded where they stand in the block.
use super::Ward;
use files::path::FilePath;
use front::status::Status;
use names::lines::Lines;

// A name has 256 bytes at most, a byte order mark 3; a line of so many is refused, and so is all that begins with it.
const KEPT: usize = 300;

impl Ward<'_, '_> {
    // Reads once, behind what was answered; whether there was more.
    fn read_more(&mut self, names: &mut Lines<'_>) -> Result<bool, Status> {
        self.out.flush();
        if self.out.status() == Status::Fault {
            return Err(Status::Fault);
        }
        names.read()
    }

    // Nothing says that the input ends, so the turns are counted up to a number that no run reaches.
    fn take_input(&mut self, lines: &mut [u8], names: &mut Lines<'_>) -> Result<(), Status> {
        for _ in 0..u64::MAX {
            if names.take_all() {
                self.take_lines(lines, names.taken());
            }
            if !self.read_more(names)? {
                break;
            }
        }
        // What is left is a last line that has no newline.
        if names.take_last() {
            self.take_lines(lines, names.taken());
        }
        Ok(())
    }

    // All names of a file; `-` is standard input.
    pub(crate) fn take_path(&mut self, lines: &mut [u8], chunk: &mut [u8], path: FilePath<'_>) {
        let done = match path.open_behind(self.is_spent) {
            Ok(source) => self.take_input(
                lines,
                &mut Lines::new(path, source, chunk).keeping(KEPT),
            ),
            Err(status) => Err(status),
        };
        if let Err(status) = done {
            self.out.worsen(status);
        }
    }
}
