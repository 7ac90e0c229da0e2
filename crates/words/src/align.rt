// Alignments.
ghost use Rattle.std.specs.Prelude.{true, false, ◌≡◌, ◌<◌, MatchOption};
ghost use Rattle.words.specs.Align.{one_bit, aligned};
ghost use Rattle.words.specs.Round.{round_up};

// Whether an alignment has exactly one bit set.
pub fn one_bit(a: u32) -> bool
    ensures { result ≡ one_bit a }
{
    a.count_ones() == 1
}

// A word that has exactly one bit set.
#[derive(Clone, Copy)]
pub struct Alignment {
    pub value: u32,
    pub ghost one_bit: { one_bit value ≡ true },
}

impl Alignment {
    // The alignment of a word, where it has exactly one bit set.
    pub fn new(n: u32) -> Option<Alignment>
        ensures { MatchOption result (one_bit n ≡ false) (λ a. (one_bit n ≡ true) × (a.value ≡ n)) }
    {
        if one_bit(n) {
            Some(Alignment { value: n })
        } else {
            None
        }
    }

    // Whether an address is a multiple of the alignment.
    #[tactic(auto, unfolding(crate::specs::Align::aligned))]
    pub fn is_multiple(self, address: u32) -> bool
        ensures { result ≡ aligned self.value address }
    {
        address.is_multiple_of(self.value)
    }

    // The lowest multiple of the alignment at or above the address: it may pass 2^32. No entry point: for an address
    // that is the sum of two words at most.
    pub fn lowest_multiple(self, address: u64) -> u64
        requires { address < 0x2_0000_0000 }
        ensures { result ≡ round_up self.value address }
    {
        address.next_multiple_of(self.value as u64)
    }
}
