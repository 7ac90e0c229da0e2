// The cases that are run rather than proved. What this program writes is compared with its file
// `stdout`; its file `stdin` has the messages that it serves.
#![tactic(auto)]

mod answered;
mod blocks;
mod built;
mod defaults;
mod ids;
mod kept;
mod lines;
mod listed;
mod messages;

use std::io;

fn main(rt: HostRuntime) -> io::Result<()> {
    listed::cases(&rt)?;
    built::largest_request(&rt)?;
    built::screen_request(&rt)?;
    built::refused_calls(&rt)?;
    answered::eleven(&rt)?;
    answered::invalid(&rt)?;
    answered::beyond_picture(&rt)?;
    answered::long_message(&rt, b"size 65532", 65532)?;
    answered::long_message(&rt, b"size 65536", 65536)?;
    answered::long_message(&rt, b"size 65540", 65540)?;
    built::largest_served(&rt)?;
    defaults::cases(&rt)?;
    kept::cases(&rt)?;
    messages::serve_input(&rt)
}
