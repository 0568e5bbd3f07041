// The calls of a round: mostly sub-steps of one processor after another, in bursts; begins; now and then a processor number out of range.
// One processor is passed over at first choice, and another one later. Now and then one is unplugged behind its burst.
ghost use Rattle.std.specs.Prelude.{◌<◌, ◌≤◌};

use super::sum::Generator;

// Words, as `lists::run` takes them for C.
const WRITE: u64 = 0x1_0000_0000;

const READ: u64 = 0x2_0000_0000;

const STEP: u64 = 0x3_0000_0000;

const RETIRE: u64 = 0x4_0000_0000;

// The number of readers, the longest burst and the longest life; the generator; the processor whose turn it is, the sub-steps left of its
// burst, the processor passed over, the life left until one is unplugged, and whether that is the one whose turn it is.
#[derive(Drop)]
pub(crate) struct Calls {
    n: u64,
    burst: u64,
    span: u64,
    ghost in_range: { (n ≤ 16) × (0 < burst) × (0 < span) },
    generator: Generator,
    processor: u64,
    left: u64,
    paused: u64,
    life: u64,
    last: bool,
}

impl Calls {
    pub(crate) fn new(n: u64, burst: u64, span: u64, from: Generator) -> Calls
        requires { (n ≤ 16) × (0 < burst) × (0 < span) }
    {
        let mut generator = from;
        let life = generator.below(span);
        Calls {
            n,
            burst,
            span,
            generator,
            processor: 0,
            left: 0,
            paused: 0,
            life,
            last: false,
        }
    }

    // The next processor, and the sub-steps of its burst; and perhaps another processor to pass over.
    fn turn(&mut self) {
        self.processor = self.generator.below(self.n + 1);
        if self.processor == self.paused {
            self.processor = self.generator.below(self.n + 1);
        }
        self.left = self.generator.below(self.burst);
        if self.generator.below(128) == 0 {
            self.paused = self.generator.below(self.n + 1);
        }
    }

    // A begin. There are few readings, so that many writes have the same.
    fn begin(&mut self) -> u64 {
        if self.processor == 0 {
            WRITE | self.generator.below(4)
        } else {
            READ | self.processor
        }
    }

    // The processor whose turn it was is unplugged, at times any number from 0 to n+1. Another life begins, of which a turn takes a burst.
    fn unplug(&mut self) -> u64 {
        let mut unplugged = self.processor;
        if self.generator.below(8) == 0 {
            unplugged = self.generator.below(self.n + 2);
        }
        self.life = self.generator.below(self.span);
        self.last = false;
        RETIRE | unplugged
    }

    // The call at the head of a burst.
    fn head(&mut self) -> u64 {
        match self.generator.below(64) {
            0 => STEP | (self.n + self.generator.below(3)),
            1 => READ | self.generator.below(self.n + 3),
            2 => STEP | self.generator.draw(),
            3..40 => self.begin(),
            _ => STEP | self.processor,
        }
    }

    // The next call.
    fn call(&mut self) -> u64 {
        if 0 < self.left {
            self.left -= 1;
            return STEP | self.processor;
        }
        if self.last {
            return self.unplug();
        }
        self.turn();
        if self.burst <= self.life {
            self.life -= self.burst;
            return self.head();
        }
        self.last = true;
        self.begin()
    }
}

impl Iterator for Calls {
    type Item = u64;

    fn next(&mut self) -> Option<u64> {
        Some(self.call())
    }
}
