// Where the item of an id stands among those of its kind.
ghost use Rattle.tags.specs.Named.{Placed};

// The place of an id among `count` items, whose ids begin at `lowest`.
#[tactic(auto, unfolding(crate::specs::Place::place_of))]
pub fn place_of(id: u32, lowest: u32, count: usize) -> Option<usize>
    ensures { Placed id lowest count result }
{
    let i = id.checked_sub(lowest)? as usize;
    (i < count).then_some(i)
}
