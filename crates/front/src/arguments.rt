// The arguments behind a program's name, one after the other: the place of each, and what it is behind those before it.
ghost use Rattle.std.specs.Prelude.{◌-◌};
ghost use Rattle.std.specs.Iterator.{at_most};

use super::host::Host;
use super::options::{Scan, arg_count};

#[derive(Clone, Copy)]
pub struct Arguments {
    host: Host,
    scan: Scan,
    at: usize,
    end: usize,
}

impl Arguments {
    pub fn of(host: Host) -> Arguments {
        Arguments {
            host,
            scan: Scan::new(host.program),
            at: 1,
            end: arg_count(&host.rt),
        }
    }
}

impl Iterator for Arguments {
    type Item = (usize, Scan);

    ghost remaining = { λ s. at_most (s.end - s.at) };

    fn next(&mut self) -> Option<(usize, Scan)> {
        let at = self.at;
        if self.end <= at {
            return None;
        }
        self.scan.next(&self.host.rt, at);
        self.at = at + 1;
        Some((at, self.scan))
    }
}
