// Serves the message file that the first argument names, on the bench record.
#![tactic(auto)]

use console::failure::fail;
use file::serve::serve_file;
use std::env::{Env, FillError};
use std::io::Error;

// The system's number for a name that is too long: no path has more than 4,095 bytes.
const NAME_TOO_LONG: i32 = 36;

fn main(rt: HostRuntime) {
    // By hand: no heap, and `env::args` makes strings.
    let mut path = [0u8; 4096];
    match rt.arg(1, &mut path) {
        Ok(n) => serve_file(&rt, &path[..n]),
        Err(FillError::NotPresent) => {
            let _ = eprintln!(rt; "name a message file: serve FILE");
        }
        Err(FillError::TooLong) => fail(&rt, b"FILE", Error::from_raw_os_error(NAME_TOO_LONG)),
    }
}
