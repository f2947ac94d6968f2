//! Numbers at random from a seed.

/// A stream of numbers, by xorshift in 64 bits.
#[derive(Clone, Copy, Debug)]
pub struct Random {
    state: u64,
}

impl Random {
    ghost use Rattle.std.specs.Prelude.{◌<◌};

    /// The stream of a seed. Neighbouring seeds have streams that are not alike.
    pub fn new(seed: u64) -> Random {
        let mixed = seed.wrapping_add(1).wrapping_mul(0x9E37_79B9_7F4A_7C15);
        let mut random = Random {
            state: (mixed ^ (mixed >> 29)) | 1,
        };
        random.step();
        random
    }

    /// Goes on to the next number.
    fn step(&mut self) -> u64 {
        let mut x = self.state;
        x ^= x << 13;
        x ^= x >> 7;
        x ^= x << 17;
        self.state = x;
        x >> 16
    }

    /// A number below this one.
    pub fn below(&mut self, end: usize) -> usize
        requires { 0 < end }
        ensures { result < end }
    {
        (self.step() % end as u64) as usize
    }

    /// Whether one of so many cases is the one.
    pub fn one_in(&mut self, cases: usize) -> bool
        requires { 0 < cases }
    {
        self.below(cases) == 0
    }

    /// A number up to this one, and up to 64.
    pub fn up_to(&mut self, most: usize) -> usize {
        self.below(most.min(64) + 1)
    }

    /// One of a table, or what is named where the table is empty.
    pub fn pick<T: Copy>(&mut self, table: &[T], other: T) -> T {
        if table.is_empty() {
            return other;
        }
        table[self.below(table.len())]
    }
}
