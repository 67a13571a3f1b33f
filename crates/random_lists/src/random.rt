// Numbers that look random, from a seed.
ghost use Rattle.std.specs.Prelude.{◌+◌, ◌-◌, ◌≤◌};

#[derive(Clone, Copy)]
pub struct Random {
    pub seed: u64,
}

impl Random {
    // The next number below n, or 0 where n is 0.
    pub fn below(&mut self, n: usize) -> usize
        ensures { result ≤ n - 1 }
    {
        let x = self.seed;
        let a = x ^ (x << 13);
        let b = a ^ (a >> 7);
        self.seed = b ^ (b << 17);
        self.seed.checked_rem(n as u64).unwrap_or(0) as usize
    }

    // True once in n times.
    pub fn seldom(&mut self, n: usize) -> bool {
        self.below(n) == 0
    }

    // Fills a buffer.
    pub fn fill(&mut self, out: &mut [u8]) {
        for byte in out.iter_mut() {
            *byte = self.below(256) as u8;
        }
    }

    // The size, or now and then less.
    pub fn size_or_less(&mut self, size: usize) -> usize
        ensures { result ≤ size }
    {
        if self.seldom(12) {
            self.below(size)
        } else {
            size
        }
    }

    // The number, or now and then one more.
    pub fn or_more(&mut self, n: usize) -> usize
        requires { n ≤ 4096 }
        ensures { result ≤ n + 1 }
    {
        if self.seldom(20) { n + 1 } else { n }
    }
}
