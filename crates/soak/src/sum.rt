// The generator and the checksum.
ghost use Rattle.std.specs.Prelude.{◌<◌};

pub(crate) const SEED: u64 = 0x9E37_79B9_7F4A_7C15;

// One step of xorshift64.
fn mix(x: u64) -> u64 {
    let a = x ^ (x << 13);
    let b = a ^ (a >> 7);
    b ^ (b << 17)
}

// The generator, where it has come to.
#[derive(Clone, Copy)]
pub(crate) struct Generator(u64);

impl Generator {
    pub(crate) fn new(seed: u64) -> Generator {
        Generator(mix(seed))
    }

    // The upper half of the next word.
    pub(crate) fn draw(&mut self) -> u64
        ensures { result < 4294967296 }
    {
        self.0 = mix(self.0);
        self.0 >> 32
    }

    // A number from 0 to k-1.
    pub(crate) fn below(&mut self, k: u64) -> u64
        requires { 0 < k }
        ensures { result < k }
    {
        self.draw() % k
    }
}

// A checksum of words.
#[derive(Clone, Copy)]
pub(crate) struct Checksum(u64);

impl Checksum {
    pub(crate) fn new() -> Checksum {
        Checksum(SEED)
    }

    pub(crate) fn add(&mut self, word: u64) {
        self.0 = mix(self.0 ^ word).wrapping_add(SEED);
    }

    pub(crate) fn add_all(&mut self, words: &[u64]) {
        for word in words {
            self.add(*word);
        }
    }

    pub(crate) fn value(self) -> u64 {
        self.0
    }
}
