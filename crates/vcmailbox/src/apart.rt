// Taking messages apart.
ghost use Rattle.std.specs.Prelude.{◌≡◌};
ghost use Rattle.message.specs.Lister.{listed};
ghost use Rattle.message.specs.Reader.{found, view, reading_or, found_or};

use message::lister::list;
use message::outcome;
use message::reader::read;

// The tag of this index.
#[unsafe(no_mangle)]
pub extern "C" fn vc_list(
    message: &[u8],
    index: usize,
    place: &mut u32,
    id: &mut u32,
    size: &mut u32,
    word: &mut u32,
    value: &mut u32,
) -> u32
    ensures { record {
      outcome = result;
      place = place.new;
      id = id.new;
      size = size.new;
      word = word.new;
      value = value.new;
    } ≡ listed message.now index }
{
    let listed = list(message, index);
    *place = listed.place as u32;
    *id = listed.id;
    *size = listed.size;
    *word = listed.word;
    *value = listed.value as u32;
    listed.outcome
}

// The answer of the tag of this id and occurrence, and where its first `wanted` bytes stand.
#[unsafe(no_mangle)]
pub extern "C" fn vc_read(
    message: &[u8],
    id: u32,
    occurrence: usize,
    wanted: usize,
    place: &mut u32,
    answer: &mut u32,
    value: &mut u32,
    count: &mut u32,
) -> u32
    ensures { record {
      outcome = result;
      place = place.new;
      total = answer.new;
      value = value.new;
      count = count.new;
    } ≡ found message.now id occurrence wanted }
{
    let reading = read(message, id, occurrence, wanted);
    *place = reading.place as u32;
    *answer = reading.total;
    *value = reading.value as u32;
    *count = reading.count as u32;
    reading.outcome
}

// The same bytes, as a part of the message. `shown` comes as the default, and stays so on any refusal.
#[unsafe(no_mangle)]
pub extern "C" fn vc_read_or<'a>(
    message: &'a [u8],
    id: u32,
    occurrence: usize,
    wanted: usize,
    shown: &mut &'a [u8],
) -> u32
    ensures { reading_or result (view shown.new)
        ≡ found_or message.entry id occurrence wanted shown.old }
{
    let reading = read(message, id, occurrence, wanted);
    if reading.outcome == outcome::DONE {
        let start = reading.value;
        let end = start + reading.count;
        *shown = &message[start..end];
    }
    reading.outcome
}
