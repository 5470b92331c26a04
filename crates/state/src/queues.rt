// The queues: what one begins with, and how a thread leaves and joins one.
ghost use Rattle.std.specs.Prelude.{◌≡◌};
ghost use Rattle.reference.specs.State.{queues};
ghost use Rattle.state.specs.Model.Access.{queued_in, taken, last_from, removed, joined, placed};

use crate::access::{at, put};
use crate::{Chains, Thread};

// The front of a queue: its first thread, and the first of the chain that remains behind it.
#[derive(Clone, Copy, Debug, PartialEq, Eq)]
pub struct Front {
    pub thread: u8,
    pub rest: u8,
}

// How many ready queues there are: one for all, or one for each of n processors.
pub fn ready_queues(stealing: u8, n: u8) -> u8
    ensures { result ≡ queues stealing n }
{
    if stealing == 0 { 1 } else { n }
}

// A thread of queue q that ends its chain: queue 0 is the single ready queue, 1 to 8 are the mutexes', 8 + p is the ready queue of processor p.
pub fn queued_in(q: u8) -> Thread
    ensures { result ≡ queued_in q }
{
    if 8 < q {
        return Thread {
            status: 1,
            holder: q - 8,
            next: 0,
        };
    }
    let status = if q == 0 { 1 } else { 2 };
    Thread {
        status,
        holder: q,
        next: 0,
    }
}

impl Chains {
    // What taking from queue q finds: its front, if it has one, while the queue stays as it is until the thread is moved.
    #[tactic(auto, unfolding(crate::specs::Model::Access::taken))]
    pub fn take(&self, q: u8) -> Option<Front>
        ensures { result ≡ taken self.now q }
    {
        let first = at(&self.firsts, q as usize);
        let front = Front {
            thread: first,
            rest: at(&self.threads, first as usize).next,
        };
        if first == 0 { None } else { Some(front) }
    }

    // The thread at the end of the chain from first: no chain has more than 32 links.
    fn last(&self, first: u8) -> u8
        ensures { result ≡ last_from self.now.threads 32 first }
    {
        let mut k = first;
        for _ in 0..32u8 {
            let next = at(&self.threads, k as usize).next;
            if next == 0 {
                return k;
            }
            k = next;
        }
        k
    }

    // Thread k leaves the front of queue q, whose chain then begins at rest, and is t.
    #[tactic(auto, unfolding(crate::specs::Model::Access::removed))]
    pub fn remove(&mut self, q: u8, k: u8, rest: u8, t: Thread)
        ensures { self.new ≡ removed self.old q k rest t }
    {
        put(&mut self.firsts, q as usize, rest);
        put(&mut self.threads, k as usize, t);
    }

    // Thread k joins queue q's end.
    #[tactic(auto, unfolding(crate::specs::Model::Access::joined))]
    pub fn join(&mut self, q: u8, k: u8)
        ensures { self.new ≡ joined self.old q k }
    {
        let front = at(&self.firsts, q as usize);
        if front == 0 {
            put(&mut self.threads, k as usize, queued_in(q));
            put(&mut self.firsts, q as usize, k);
        } else {
            let last = self.last(front);
            put(&mut self.threads, k as usize, queued_in(q));
            let before = at(&self.threads, last as usize);
            put(
                &mut self.threads,
                last as usize,
                Thread { next: k, ..before },
            );
        }
    }

    // Thread k becomes t, in no queue.
    #[tactic(auto, unfolding(crate::specs::Model::Access::placed))]
    pub fn place(&mut self, k: u8, t: Thread)
        ensures { self.new ≡ placed self.old k t }
    {
        let i = k as usize;
        put(&mut self.threads, i, t);
    }
}
