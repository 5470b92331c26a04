// Turns ahead by the chain of a mutex's queue.
ghost use Rattle.std.specs.Prelude.{◌≡◌};
ghost use Rattle.state.specs.Record.{thread_in, chain};
ghost use Rattle.picture.specs.Turns.{before, turns_shown};
ghost use Rattle.picture.specs.Model.Parts.{chain_turns};

use state::access::at;
use state::{State, Thread};

// How many threads stand before a thread in the chain from first: no chain has more than 32.
fn before(threads: &[Thread], first: u8, thread: u8) -> u8
    ensures { result ≡ before thread (chain (thread_in threads.now) 32 first) }
{
    let mut k = first;
    for n in 0..32u8 {
        if k == 0 {
            return n;
        }
        if k == thread {
            return n;
        }
        k = at(threads, k as usize).next;
    }
    32
}

// By the thread's own record: its mutex, where it waits.
#[tactic(auto, unfolding(crate::specs::Turns::turns_shown))]
pub(crate) fn turns_ahead(s: State, thread: u8) -> Option<u8>
    ensures { turns_shown result ≡ chain_turns s thread }
{
    let x = at(&s.chains.threads, thread as usize);
    if x.status != 2 {
        return None;
    }
    let first = at(&s.chains.firsts, x.holder as usize);
    let n = before(&s.chains.threads, first, thread);
    let mutex = at(&s.mutexes, x.holder as usize);
    if mutex.owner == 0 {
        return Some(n);
    }
    Some(n + 1)
}
