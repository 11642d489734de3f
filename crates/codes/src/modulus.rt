// Sums modulo a number, by compare and subtract.
ghost use Rattle.std.specs.Prelude.{◌≡◌, [], ◌∷◌, ◌+◌, ◌-◌, ◌≤◌, ◌<◌};
ghost use Rattle.codes.specs.Syndrome.{weighted_sum};
ghost use Rattle.codes.specs.code.Sums.{Residue};

// What is added up modulo m. The bounds only keep additions in range: a range has at most MAX_BITS bits, and its modulus is at most two
// more.
#[derive(Clone, Copy, Debug, PartialEq, Eq)]
pub struct Modulus {
    pub m: u32,
    ghost least: { 1 ≤ m },
    ghost most: { m ≤ 100000 },
}

impl Modulus {
    pub fn new(m: usize) -> Modulus
        requires least { 1 ≤ m }
        requires most { m ≤ 100000 }
        ensures { result.m ≡ m }
    {
        Modulus { m: m as u32 }
    }

    // x + y, for a summand y that is not above m: one subtraction is enough. Not as the smaller of z and z - m, wrapped round: whole runs
    // took a fifth longer. That a sum is below m stays a clause: a type of such sums would hold m once more in each of a byte's eight.
    pub fn add(self, x: u32, y: u32) -> u32
        requires x_lt_m { x < self.m }
        requires y_le_m { y ≤ self.m }
        ensures { Residue self.m (x + y) result }
    {
        let z = x + y;
        if self.m <= z {
            return z - self.m;
        }
        z
    }

    // a - x, of two numbers below m.
    pub fn subtract(self, a: usize, x: usize) -> usize
        requires a_lt_m { a < self.m }
        requires x_lt_m { x < self.m }
        ensures { Residue self.m (a + (self.m - x)) result }
    {
        if x <= a {
            return a - x;
        }
        a + (self.m as usize - x)
    }

    // One bit more, of the given place: the sum, which is that of the bits so far, stays below m and is that of one bit more. There is no
    // branch on the bit, because the bits of a string are hard to foretell.
    pub fn add_bit(self, sum: u32, place: u32, b: bool) -> u32
        requires sum_lt_m { sum < self.m }
        requires place_le_m { place ≤ self.m }
        ensures { Residue self.m (sum + weighted_sum place (b ∷ [])) result }
    {
        self.add(sum, place * b as u32)
    }
}
