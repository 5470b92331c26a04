// The record's zero values, and reads and writes of its arrays at any index: past the end a read gives zero and a write does nothing.
ghost use Rattle.std.specs.Prelude.{◌≡◌, get_or, set};
ghost use Rattle.state.specs.Record.{zero_token, zero_processor, zero_mutex, zero_thread, processor_of};

use crate::{Mutex, Processor, State, Thread, Token};

// What stands for none.
pub trait Zero: Copy {
    ghost zero: { Self };

    fn zero() -> Self
        ensures { result ≡ zero };
}

impl Zero for u8 {
    ghost zero = { 0 };

    fn zero() -> u8 {
        0
    }
}

impl Zero for u16 {
    ghost zero = { 0 };

    fn zero() -> u16 {
        0
    }
}

impl Zero for Token {
    ghost zero = { zero_token };

    fn zero() -> Token {
        Token {
            processor: 0,
            sequence: 0,
        }
    }
}

impl Zero for Processor {
    ghost zero = { zero_processor };

    fn zero() -> Processor {
        Processor {
            position: 0,
            current: 0,
            transit: 0,
            mutex: 0,
            observed: Token::zero(),
            sequence: 0,
            answer: 0,
            probe: 0,
        }
    }
}

impl Zero for Mutex {
    ghost zero = { zero_mutex };

    fn zero() -> Mutex {
        Mutex {
            count: 0,
            owner: 0,
            token: Token::zero(),
        }
    }
}

impl Zero for Thread {
    ghost zero = { zero_thread };

    fn zero() -> Thread {
        Thread {
            status: 0,
            holder: 0,
            next: 0,
        }
    }
}

pub fn at<T: Zero>(xs: &[T], i: usize) -> T
    ensures { result ≡ get_or xs.now i T.zero }
{
    if i < xs.len() { xs[i] } else { T::zero() }
}

pub fn put<T: Zero>(xs: &mut [T], i: usize, x: T)
    ensures { xs.new ≡ set xs.old i x }
{
    if i < xs.len() {
        xs[i] = x;
    }
}

impl State {
    pub fn processor(self, p: u8) -> Processor
        ensures { result ≡ processor_of self p }
    {
        at(&self.processors, p as usize)
    }
}
