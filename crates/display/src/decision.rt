// The decision on an operation.
ghost use Rattle.std.specs.Prelude.{true, false, cond, ◌≡◌, Some, None, MatchOption};
ghost use Rattle.display.specs.Decision.{nowhere, supported_from, placed_at, allocatable, fits_buffer, accepted};
ghost use Rattle.display.specs.Decision.{has_buffer, buffer_placed, buffer_after, showing, left_alone, tested};
ghost use Rattle.display.specs.Decision.{carried_out, decided};

use crate::operation::Operation;
use crate::valid::ValidDisplay;
use board::display::{Display, Settings};
use board::facts::Span;
use board::settings::PossibleSettings;
use words::align::Alignment;

// Whether the group's tags are answered, whether the operation was accepted, the settings, the pitch and the
// buffer that they answer, and the display afterwards. `answered` is a flag: what is shown and how the display is
// left are said in either case, and theorems speak of it alone.
#[derive(Clone, Copy)]
pub struct Decision {
    pub answered: bool,
    pub accepted: bool,
    pub shown: Settings,
    pub pitch: u32,
    pub placed: Span,
    pub display: Display,
}

// The functions below are given a display and an operation: each is a struct, and a pair of both would say no more.

// The buffer that an operation places, and the one that stands afterwards.
#[derive(Clone, Copy)]
struct Buffers {
    placed: Span,
    standing: Span,
}

// The settings that an operation proposes, where they are supported.
#[tactic(auto, unfolding(crate::specs::Decision::supported_from))]
fn proposed(d: ValidDisplay, o: Operation) -> Option<PossibleSettings>
    ensures { MatchOption result (supported_from d.display o.proposal ≡ false)
        (λ p. (supported_from d.display o.proposal ≡ true) × (p.settings ≡ o.proposal)) }
{
    PossibleSettings::supported(d.display.region.size, o.proposal)
}

// The buffer that an allocate of this alignment places, where the region has room for it.
#[tactic(auto, unfolding(crate::specs::Decision::allocatable, crate::specs::Decision::placed_at))]
fn place(d: ValidDisplay, alignment: u32, proposal: PossibleSettings) -> Option<Span>
    ensures { result ≡ cond (allocatable alignment d.display proposal.settings)
        (Some (placed_at alignment d.display proposal.settings)) None }
{
    let region = d.display.region;
    let alignment = Alignment::new(alignment)?;
    let base = alignment.lowest_multiple(region.base as u64);
    let size = proposal.need();
    if region.end() < base + size as u64 {
        return None;
    }
    Some(Span {
        base: base as u32,
        size,
    })
}

// Whether the buffer that stands may stay, or goes.
#[tactic(auto, unfolding(crate::specs::Decision::fits_buffer))]
fn fits_buffer(d: ValidDisplay, o: Operation, proposal: PossibleSettings) -> bool
    requires { proposal.settings ≡ o.proposal }
    ensures { result ≡ fits_buffer d.display o }
{
    let buffer = d.display.buffer;
    buffer.size == 0 || o.releases || proposal.need() <= buffer.size
}

fn buffers_of(d: ValidDisplay, o: Operation, proposal: PossibleSettings) -> Option<Buffers>
    requires { proposal.settings ≡ o.proposal }
    ensures { result ≡ cond (has_buffer o.alignment d.display o) (Some (record {
      placed = buffer_placed o.alignment d.display o;
      standing = buffer_after o.alignment o.releases d.display o;
    })) None }
{
    if let Some(alignment) = o.alignment {
        let placed = place(d, alignment, proposal)?;
        return Some(Buffers {
            placed,
            standing: placed,
        });
    }
    if !fits_buffer(d, o, proposal) {
        return None;
    }
    let placed = Span::default();
    let standing = if o.releases { placed } else { d.display.buffer };
    Some(Buffers { placed, standing })
}

fn show(s: PossibleSettings, d: Display) -> Decision
    ensures { result ≡ showing s.settings d }
{
    Decision {
        answered: true,
        accepted: false,
        shown: s.settings,
        pitch: s.pitch(),
        placed: Span::default(),
        display: d,
    }
}

// The group is left alone.
pub fn leave(d: ValidDisplay) -> Decision
    ensures { result ≡ left_alone d.display }
{
    Decision {
        answered: false,
        ..show(d.settings(), d.display)
    }
}

fn test(d: ValidDisplay, o: Operation) -> Decision
    ensures { result ≡ tested (supported_from d.display o.proposal) d.display o }
{
    show(proposed(d, o).unwrap_or(d.settings()), d.display)
}

// The decision on sets and gets that are accepted.
#[tactic(auto, unfolding(crate::specs::Decision::accepted))]
fn accept(d: ValidDisplay, o: Operation) -> Option<Decision>
    ensures { result ≡ cond (accepted d.display o) (Some (carried_out true d.display o)) None }
{
    let proposal = proposed(d, o)?;
    let buffers = buffers_of(d, o, proposal)?;
    let display = Display {
        settings: proposal.settings,
        buffer: buffers.standing,
        ..d.display
    };
    Some(Decision {
        accepted: true,
        placed: buffers.placed,
        ..show(proposal, display)
    })
}

fn carry_out(d: ValidDisplay, o: Operation) -> Decision
    ensures { result ≡ carried_out (accepted d.display o) d.display o }
{
    // By hand: with `unwrap_or` the proof did not close.
    match accept(d, o) {
        Some(decision) => decision,
        None => show(d.settings(), d.display),
    }
}

// The decision on an operation.
#[tactic(auto, unfolding(crate::specs::Decision::decided))]
pub fn decide(d: ValidDisplay, o: Operation) -> Decision
    ensures { result ≡ decided d.display o }
{
    match (o.tests, o.others) {
        (true, false) => test(d, o),
        (false, true) => carry_out(d, o),
        // Tests beside other tags leave the group alone; without a group tag there is nothing to decide.
        _ => leave(d),
    }
}
