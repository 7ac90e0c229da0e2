// Building requests.
ghost use Rattle.std.specs.Prelude.{◌≡◌};
ghost use Rattle.message.specs.Builder.{leaves, built, started, added, finished};

use message::builder;
use message::builder::Cursor;

// Starts a request in the buffer, and gives the first cursor.
#[unsafe(no_mangle)]
pub extern "C" fn vc_start(buffer: &[u8], cursor: &mut u32) -> u32
    ensures { built result cursor.new ≡ started buffer.now }
{
    let started = builder::start(buffer);
    let first = started.cursor;
    *cursor = first.at as u32;
    started.outcome
}

// Adds a tag at the cursor, and gives the cursor behind it.
#[unsafe(no_mangle)]
pub extern "C" fn vc_add(
    buffer: &mut [u8],
    cursor: &mut u32,
    id: u32,
    size: u32,
    request: &[u8],
) -> u32
    ensures { leaves buffer.new (built result cursor.new)
        ≡ added buffer.old (record { at = cursor.old }) id size request.now }
{
    let at = *cursor as usize;
    let added = builder::add(buffer, Cursor { at }, id, size, request);
    let next = added.cursor;
    *cursor = next.at as u32;
    added.outcome
}

// Finishes the request at the cursor, and gives its size.
#[unsafe(no_mangle)]
pub extern "C" fn vc_finish(buffer: &mut [u8], cursor: u32, size: &mut u32) -> u32
    ensures { leaves buffer.new (record { outcome = result; place = 0; size = size.new })
        ≡ finished buffer.old (record { at = cursor }) }
{
    let at = cursor as usize;
    let finished = builder::finish(buffer, Cursor { at });
    *size = finished.size as u32;
    finished.outcome
}
