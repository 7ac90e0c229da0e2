// All group tags of a message as one operation.
ghost use Rattle.std.specs.Prelude.{◌≡◌};
ghost use Rattle.display.specs.Operation.{size_of, offset_of, with_setting, unasked, noted};

use board::display::{Offset, Settings, Size};
use table::kinds::{FrameTag, Setting};
use words::numbers::nth_word;

// What the group tags come to: whether there are tests, and others; the settings that they propose,
// later over earlier; the last allocate's alignment, where there is one; whether there is a release.
#[derive(Clone, Copy)]
pub struct Operation {
    pub tests: bool,
    pub others: bool,
    pub proposal: Settings,
    pub alignment: Option<u32>,
    pub releases: bool,
}

// The operation before its first tag.
pub fn no_tag_yet(settings: Settings) -> Operation
    ensures { result ≡ unasked settings }
{
    Operation {
        tests: false,
        others: false,
        proposal: settings,
        alignment: None,
        releases: false,
    }
}

// A function for each struct, since their fields have other names.
fn size_of(request: &[u8]) -> Size
    ensures { result ≡ size_of request.now }
{
    Size {
        width: nth_word(request, 0),
        height: nth_word(request, 1),
    }
}

fn offset_of(request: &[u8]) -> Offset
    ensures { result ≡ offset_of request.now }
{
    Offset {
        x: nth_word(request, 0),
        y: nth_word(request, 1),
    }
}

#[tactic(auto, unfolding(crate::specs::Operation::with_setting))]
fn with_setting(s: Settings, setting: Setting, request: &[u8]) -> Settings
    ensures { result ≡ with_setting setting request.now s }
{
    match setting {
        Setting::Physical => Settings {
            physical: size_of(request),
            ..s
        },
        Setting::Virtual => Settings {
            logical: size_of(request),
            ..s
        },
        Setting::Depth => Settings {
            depth: nth_word(request, 0),
            ..s
        },
        Setting::Order => Settings {
            order: nth_word(request, 0),
            ..s
        },
        Setting::Alpha => Settings {
            alpha: nth_word(request, 0),
            ..s
        },
        Setting::Offset => Settings {
            offset: offset_of(request),
            ..s
        },
    }
}

// The operation with one tag more, with its request.
#[tactic(auto, unfolding(crate::specs::Operation::noted))]
pub fn note(o: Operation, tag: FrameTag, request: &[u8]) -> Operation
    ensures { result ≡ noted tag request.now o }
{
    match tag {
        FrameTag::Get(_) | FrameTag::Pitch => Operation { others: true, ..o },
        FrameTag::Test(setting) => Operation {
            tests: true,
            proposal: with_setting(o.proposal, setting, request),
            ..o
        },
        FrameTag::Set(setting) => Operation {
            others: true,
            proposal: with_setting(o.proposal, setting, request),
            ..o
        },
        FrameTag::Allocate => Operation {
            others: true,
            alignment: Some(nth_word(request, 0)),
            ..o
        },
        FrameTag::Release => Operation {
            others: true,
            releases: true,
            ..o
        },
    }
}
