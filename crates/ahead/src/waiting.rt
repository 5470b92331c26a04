// Turns ahead by the chain of a mutex's queue, and the mark by its token and the processors at H5.
ghost use Rattle.std.specs.Prelude.{◌≡◌};
ghost use Rattle.state.specs.Record.{thread_in, chain};
ghost use Rattle.overtaking.specs.Ahead.{before};
ghost use Rattle.ahead.specs.Turns.{place_shown};
ghost use Rattle.ahead.specs.Model.Waiting.{chain_turns, offering, marked, chain_answer};

use crate::Place;
use state::access::at;
use state::range::each;
use state::{Position, Processor, State, Thread};

// How many threads stand before a thread in the chain from first: no chain has more than 32.
// kept: beside that of picture, since this one's clause is about `before` of overtaking, and neither crate is above the other.
fn before(threads: &[Thread], first: u8, thread: u8) -> u8
    ensures { result ≡ before thread (chain (thread_in threads.now) 32 first) }
{
    let mut k = first;
    for n in 0..32u8 {
        if k == 0 {
            return n;
        }
        if k == thread {
            return n;
        }
        k = at(threads, k as usize).next;
    }
    32
}

// Those before a thread in the queue of mutex m, and the owner.
fn turns(s: &State, m: u8, thread: u8) -> u8
    ensures { result ≡ chain_turns s.now m thread }
{
    let n = before(&s.chains.threads, at(&s.chains.firsts, m as usize), thread);
    let mutex = at(&s.mutexes, m as usize);
    if mutex.owner == 0 {
        return n;
    }
    n + 1
}

fn offers(x: Processor, m: u8) -> bool
    ensures { result ≡ offering m x }
{
    (x.position == Position::H5) & (x.mutex == m)
}

// Mutex m has a token, or a processor stands at H5 on it.
#[tactic(auto, unfolding(crate::specs::Model::Waiting::marked))]
fn marked(s: &State, m: u8) -> bool
    ensures { result ≡ marked s.now m }
{
    let mutex = at(&s.mutexes, m as usize);
    let none = each(1, s.p, |i| !offers(at(&s.processors, i as usize), m));
    (0 < mutex.token.processor) | !none
}

// By the thread's own record: its mutex, where it waits.
#[tactic(auto, unfolding(crate::specs::Turns::place_shown))]
pub(crate) fn turns_ahead(s: &State, thread: u8) -> Option<Place>
    ensures { place_shown result ≡ chain_answer s.now thread }
{
    let x = at(&s.chains.threads, thread as usize);
    if x.status != 2 {
        return None;
    }
    Some(Place {
        turns: turns(s, x.holder, thread),
        overtakable: marked(s, x.holder),
    })
}
