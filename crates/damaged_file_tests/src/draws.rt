//! Numbers that look random, and are the same in each run.

/// A generator by shifts (xorshift). Its seed isn't 0.
#[derive(Drop)]
pub struct Draws {
    state: u64,
}

impl Draws {
    pub fn new(seed: u64) -> Draws {
        Draws { state: seed }
    }

    fn next(&mut self) -> u64 {
        let mut x = self.state;
        x = x ^ (x << 13);
        x = x ^ (x >> 7);
        x = x ^ (x << 17);
        self.state = x;
        x
    }

    /// A number below a limit, or 0 where the limit is.
    pub fn below(&mut self, limit: usize) -> usize {
        if limit == 0 {
            return 0;
        }
        (self.next() % limit as u64) as usize
    }

    /// A byte.
    pub fn byte(&mut self) -> u8 {
        (self.next() % 256) as u8
    }

    /// What turns a byte into another one by an exclusive or: a byte that isn't 0.
    pub fn change(&mut self) -> u8 {
        (self.next() % 255) as u8 + 1
    }
}
