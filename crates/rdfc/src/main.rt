//! `rdfc`: writes the canonical form of RDF datasets.
#![tactic(auto)]

use outside::{FileShelf, StdSink};
use rdfc_cli::{Status, run};
use std::env;
use std::hash::RandomState;
use std::io::ErrorKind;
use std::process::ExitCode;

fn exit_code(status: Status) -> ExitCode {
    ExitCode::from(status.code())
}

// Words that the system refuses are no command. Where memory was refused for them, that is said, and
// so it is where the system gives no random bytes.
fn main(rt: HostRuntime) -> ExitCode {
    let args = match env::args(&rt) {
        Ok(args) => args,
        Err(error) if error.kind() == ErrorKind::OutOfMemory => return exit_code(Status::NoMemory),
        Err(_) => return exit_code(Status::Usage),
    };
    let mut words = Vec::new(rt.alloc());
    for word in args.skip(1) {
        if words.push(word).is_err() {
            return exit_code(Status::NoMemory);
        }
    }
    let Ok(keys) = RandomState::new(&rt) else {
        return exit_code(Status::NoMemory);
    };
    let mut shelf = FileShelf::new(&rt);
    let mut out = StdSink::new(rt.stdout());
    let mut notes = StdSink::new(rt.stderr());
    let status = run(rt.alloc(), keys, &words, &mut shelf, &mut out, &mut notes);
    exit_code(status)
}
