// The passes that sleep until a variable that they read is written.
use tmem_effect::Effect;
use tmem_tentative::Reads;

/// What each pass that sleeps has read, by the number of the pass, of which there are at most 32: 64 bits each, one for
/// each variable modulo 64, so a pass may be woken by a commit that writes none of what it read.
#[derive(Drop)]
pub(crate) struct Sleepers {
    asleep: u32,
    reads: [u64; 32],
}

impl Sleepers {
    /// None sleeps.
    pub(crate) fn new() -> Sleepers {
        Sleepers {
            asleep: 0,
            reads: [0; 32],
        }
    }

    /// The pass of this number sleeps, and has read so much.
    pub(crate) fn sleep(&mut self, number: u64, reads: &Reads) {
        let mut read = 0;
        for (var, _) in reads.iter() {
            read |= bit_of(*var);
        }
        let index = (number % 32) as usize;
        self.reads[index] = read;
        self.asleep |= 1u32 << index;
    }

    /// Those that have read what the effect writes, each by its bit. They sleep no more.
    pub(crate) fn wake(&mut self, effect: &Effect) -> u32 {
        if self.asleep == 0 {
            return 0;
        }
        let mut written = 0;
        for (var, _) in effect.writes.as_slice() {
            written |= bit_of(*var);
        }
        let mut woken = 0;
        for index in 0..32usize {
            if self.reads[index] & written != 0 {
                woken |= 1u32 << index;
            }
        }
        woken &= self.asleep;
        self.asleep &= !woken;
        woken
    }
}

// The bit of a variable.
fn bit_of(var: u16) -> u64 {
    1u64 << (var % 64)
}
