// What lent lists take in, and what a call leaves in them.
#![tactic(auto)]

ghost use Rattle.std.specs.Prelude.{◌≡◌, ◌%◌, [], ◌∷◌, length, set};
ghost use Rattle.lent.specs.Forms.Puts.{Puts, past_one};

// The lists that a caller lends: for the row and the start of each segment, and for the total of each order.
#[derive(Drop)]
pub struct Lists<'a> {
    pub rows: &'a mut [u16],
    pub starts: &'a mut [u32],
    pub totals: &'a mut [u64],
}

// A number that fits 16 bits: the remainder, since `as` alone is refused where bits may be lost.
pub fn low16(x: usize) -> u16
    ensures { result ≡ x % 65536 }
{
    (x % 65536) as u16
}

// A number that fits 32 bits: the remainder likewise. Two functions and no generic one: no trait narrows with
// loss, so each needs an `as` of its own.
pub fn low32(x: usize) -> u32
    ensures { result ≡ x % 4294967296 }
{
    (x % 4294967296) as u32
}

// Puts a byte at `j`, if the room reaches so far, and gives the place past it. Room and place are two values: `Puts` speaks of the place before and after.
#[tactic(auto, using(crate::specs::Laws::PutsLaws::puts_set, crate::specs::Laws::PutsLaws::puts_full, crate::specs::Laws::PutsLaws::set_full, crate::specs::Laws::PutsLaws::past_set, crate::specs::Laws::PutsLaws::past_full))]
pub fn put(out: &mut [u8], j: usize, b: u8) -> usize
    ensures puts { Puts j (b ∷ []) out.old out.new result }
    ensures out_after { out.new ≡ set out.old j b }
    ensures value { result ≡ past_one j (length out.old) }
{
    if j < out.len() {
        out[j] = b;
        return j + 1;
    }
    j
}
