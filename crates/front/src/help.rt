// The page that helps, and the version. Each program has its page in a file help.rt of its own, from which its script prints it, so that it needs no build: a
// line of the page is a line there. The scripts take the version from this file.
use super::host::Host;
use super::options::{Scan, tell};
use super::status::Status;

pub const VERSION: &str = "0.1.0";

pub fn page(host: Host, page: &str) -> Status {
    host.show(page)
}

fn version(host: Host) -> Status {
    let program = host.program;
    host.show(format_args!("{program} (Zengilvar) {VERSION}\n"))
}

// The status of a run that ends with what its options say, if it does: a fault of use, the page that helps, or the version.
fn ended(host: Host, scan: &Scan, page: &str) -> Option<Status> {
    if let Some(fault) = scan.fault {
        return Some(tell(host, fault));
    }
    if scan.help {
        return Some(self::page(host, page));
    }
    if scan.version {
        return Some(version(host));
    }
    None
}

// Runs a program: what its options ask for, or what it is for.
pub fn run<F: FnOnce(Host, &Scan) -> Result<Status, Status>>(
    host: Host,
    page: &str,
    serve: F,
) -> Status
    requires { F.IsAlwaysCallable serve }
{
    let scan = Scan::all(host);
    match ended(host, &scan, page) {
        Some(status) => status,
        None => serve(host, &scan).unwrap_or_else(|status| status),
    }
}
