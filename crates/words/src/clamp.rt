// Clamping.
ghost use Rattle.std.specs.Prelude.{◌≡◌};
ghost use Rattle.words.specs.Clamp.{clamp};

// x, or the nearer bound where it lies outside; `high` where the bounds have changed places.
pub fn clamped(low: u32, high: u32, x: u32) -> u32
    ensures { result ≡ clamp low high x }
{
    x.max(low).min(high)
}
