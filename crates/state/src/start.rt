// The all-zero record, and the record of the start state.
ghost use Rattle.std.specs.Prelude.{◌≡◌, ◌+◌, leb};
ghost use Rattle.reference.specs.Lists.{choose, around, tabulate};
ghost use Rattle.state.specs.Record.{zero_state};
ghost use Rattle.state.specs.Model.Access.{first_processor, first_index, first_thread, first_first, start_record};

use crate::access::Zero;
use crate::queues::{queued_in, ready_queues};
use crate::{Chains, Mutex, Position, Processor, State, Thread, Token};
use std::array;

impl State {
    pub fn zero() -> State
        ensures { result ≡ zero_state }
    {
        let thread = Thread::zero();
        let processor = Processor::zero();
        let mutex = Mutex::zero();
        let firsts = [0u8; 17];
        let threads = [thread; 33];
        let processors = [processor; 9];
        let mutexes = [mutex; 9];
        let chains = Chains { firsts, threads };
        State {
            p: 0,
            t: 0,
            m: 0,
            stealing: 0,
            applied: 0,
            chains,
            processors,
            mutexes,
        }
    }

    // p processors, t threads and m mutexes, of the threads b created; stealing 0 for a single ready queue, 1 for one for each processor.
    pub fn start(p: u8, t: u8, m: u8, b: u8, stealing: u8) -> State
        ensures { result ≡ start_record p t m b stealing }
    {
        let mut s = State::zero();
        let mut chains = s.chains;
        let firsts = first_firsts(p, b, stealing);
        let threads = first_threads(p, b, stealing);
        let processors = first_processors(p, b);
        chains.firsts = firsts;
        chains.threads = threads;
        s.p = p;
        s.t = t;
        s.m = m;
        s.stealing = stealing;
        s.chains = chains;
        s.processors = processors;
        s
    }
}

// With p processors and b created threads, processor i starts with thread i, or idle where that is not created.
fn first_position(p: u8, b: u8, i: u8) -> u8
    ensures { result ≡ (first_processor p b i).position }
{
    let there = (1 <= i) & (i <= p);
    let idle = there & !(i <= b);
    if idle { Position::CI2 } else { Position::APP }
}

fn first_current(p: u8, b: u8, i: u8) -> u8
    ensures { result ≡ (first_processor p b i).current }
{
    let there = (1 <= i) & (i <= p);
    let loaded = there & (i <= b);
    if loaded { i } else { 0 }
}

// Each processor is made where it is stored: one that a function answers is copied in pieces, which takes three times as long.
fn first_processors(p: u8, b: u8) -> [Processor; 9]
    ensures { result ≡ tabulate (first_processor p b) 0 9 }
{
    let mut processors = [Processor::zero(); 9];
    for i in 0..9u8 {
        let at = i as usize;
        let position = first_position(p, b, i);
        let current = first_current(p, b, i);
        processors[at] = Processor {
            position,
            current,
            transit: 0,
            mutex: 0,
            observed: Token::zero(),
            sequence: 0,
            answer: 0,
            probe: 0,
        };
    }
    processors
}

// k and n more, where that is at most b, else 0.
fn up_to(b: u8, k: u8, n: u8) -> u8
    ensures { result ≡ choose (leb (k + n) b) (k + n) 0 }
{
    if n <= b {
        if k <= b - n {
            return k + n;
        }
    }
    0
}

// The k-th place of a ring of p.
fn around(p: u8, k: u8) -> u8
    ensures { result ≡ around p k }
{
    if k == 0 {
        return 1;
    }
    if p == 0 {
        return k;
    }
    (k - 1) % p + 1
}

// The index of the ready queue in which thread k starts.
fn first_index(p: u8, stealing: u8, k: u8) -> u8
    ensures { result ≡ first_index p stealing k }
{
    let there = (1 <= p) & (p <= 8);
    if there {
        if stealing != 0 {
            return 8 + around(p, k);
        }
    }
    0
}

fn first_thread(p: u8, b: u8, stealing: u8, k: u8) -> Thread
    ensures { result ≡ first_thread p b stealing k }
{
    let created = (1 <= k) & (k <= b);
    if created {
        if k <= p {
            return Thread {
                status: 3,
                holder: k,
                next: 0,
            };
        }
        let mut x = queued_in(first_index(p, stealing, k));
        let n = up_to(b, k, ready_queues(stealing, p));
        x.next = n;
        return x;
    }
    Thread::zero()
}

fn first_threads(p: u8, b: u8, stealing: u8) -> [Thread; 33]
    ensures { result ≡ tabulate (first_thread p b stealing) 0 33 }
{
    array::from_fn(|k| first_thread(p, b, stealing, k as u8))
}

// The first of queue q: thread P + i of the i-th ready queue.
fn first_first(p: u8, b: u8, stealing: u8, q: u8) -> u8
    ensures { result ≡ first_first p b stealing q }
{
    if stealing == 0 {
        if q == 0 {
            return up_to(b, p, 1);
        }
        return 0;
    }
    if 8 < q {
        if q - 8 <= p {
            return up_to(b, p, q - 8);
        }
    }
    0
}

fn first_firsts(p: u8, b: u8, stealing: u8) -> [u8; 17]
    ensures { result ≡ tabulate (first_first p b stealing) 0 17 }
{
    array::from_fn(|q| first_first(p, b, stealing, q as u8))
}
