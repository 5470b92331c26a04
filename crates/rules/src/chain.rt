// Rule 13: the queues as chains, over a record's threads and over a picture's bytes alike.
ghost use Rattle.std.specs.Prelude.{◌≡◌, ◌≤◌, ℕ, get_or};
ghost use Rattle.state.specs.declared.Thread.{Thread};
ghost use Rattle.state.specs.Record.{zero_thread, thread_in};
ghost use Rattle.state.specs.Rules.{placed_in, chains_in};
ghost use Rattle.rules.specs.Walk.{has_bit, walk_to, Represents, RepresentsAlong};
ghost use Rattle.rules.specs.Model.Bytes.{thread_in_bytes};
ghost use Rattle.rules.specs.Model.Chain.{with_bit, queued, none_missed};

use state::Thread;
use state::access::{Zero, at};
use state::layout::Width;
use state::queues::queued_in;
use state::range::{each, in_range};

// Where the threads that the chains name are read.
pub trait ThreadTable: Copy {
    ghost thread: { Self → ℕ → Thread };

    // Thread k, the zero record where there is none.
    fn thread(self, k: u8) -> Thread
        ensures read { result ≡ thread self k }
        ensures none { 33 ≤ k → result ≡ zero_thread };
}

// A record's threads.
impl ThreadTable for &[Thread; 33] {
    ghost thread = { λ threads. thread_in threads.now };

    fn thread(self, k: u8) -> Thread {
        at(self, k as usize)
    }
}

// The thread records of a picture, as they stand in its bytes.
impl ThreadTable for &[u8] {
    ghost thread = { λ threads. thread_in_bytes threads.now };

    #[tactic(auto, unfolding(crate::specs::Model::Bytes::thread_in_bytes))]
    fn thread(self, k: u8) -> Thread {
        if !in_range(1, 32, k) {
            return Thread::zero();
        }
        let i = Width::THREAD * (k as usize - 1);
        Thread {
            status: at(self, i),
            holder: at(self, i + 1),
            next: at(self, i + 2),
        }
    }
}

// The threads met so far, bit k for thread k; whether the walk ended at a thread met already, and whether at one not placed in its queue.
// kept: three fields and no Result, since `OneAnswer` and `OneNumber` of specs/Walk.antt are stated of them, and both tests may fail at one thread.
#[derive(Clone, Copy, Debug, PartialEq, Eq)]
pub(crate) struct Walked {
    pub met: u64,
    pub twice: bool,
    pub misplaced: bool,
}

fn has_bit(met: u64, k: u8) -> bool
    ensures { result ≡ has_bit met k }
{
    let i = k as u64;
    if i < 64 { (met >> i) % 2 == 1 } else { false }
}

fn with_bit(met: u64, k: u8) -> u64
    ensures { result ≡ with_bit met k }
{
    let i = k as u64;
    if i < 64 { met | (1u64 << i) } else { met }
}

// The thread is placed in queue q.
fn placed_in(x: Thread, q: u8) -> bool
    ensures { result ≡ placed_in x q }
{
    let there = queued_in(q);
    (x.status == there.status) & (x.holder == there.holder)
}

// At most `most` threads of queue q's chain, after the threads met before.
fn walk<T: ThreadTable>(threads: T, q: u8, first: u8, most: u8, before: u64) -> Walked
    ensures { RepresentsAlong (T.thread threads) q most first before result }
{
    let mut met = before;
    let mut k = first;
    for _ in 0..most {
        if k == 0 {
            break;
        }
        let x = threads.thread(k);
        let twice = has_bit(met, k);
        let misplaced = !placed_in(x, q);
        if twice | misplaced {
            return Walked {
                met,
                twice,
                misplaced,
            };
        }
        met = with_bit(met, k);
        k = x.next;
    }
    Walked {
        met,
        twice: false,
        misplaced: false,
    }
}

// The chains of all queues before `last` in order, then at most `most` threads of that one's.
// Of a chain 33 threads are looked at: of 32 threads one is then met a second time.
fn walk_to<T: ThreadTable>(threads: T, firsts: &[u8; 17], last: u8, most: u8) -> Walked
    ensures { Represents (walk_to (T.thread threads) (λ q. get_or firsts.now q 0) last most) result }
{
    let mut met: u64 = 0;
    for q in 0..last {
        let w = walk(threads, q, at(firsts, q as usize), 33, met);
        if w.twice | w.misplaced {
            return w;
        }
        met = w.met;
    }
    walk(threads, last, at(firsts, last as usize), most, met)
}

// The thread is placed in one of the queues.
fn queued(x: Thread) -> bool
    ensures { result ≡ queued x }
{
    ((x.status == 1) & (x.holder <= 8)) | ((x.status == 2) & in_range(1, 8, x.holder))
}

// Each of the threads 1 to t that is placed in a queue was met.
fn none_missed<T: ThreadTable>(threads: T, met: u64, t: u8) -> bool
    ensures { result ≡ none_missed (T.thread threads) met t }
{
    each(1, t, |k| !queued(threads.thread(k)) | has_bit(met, k))
}

// No chain meets a thread twice or one not placed there, and none placed there is missed.
pub fn chains_ok<T: ThreadTable>(threads: T, firsts: [u8; 17], t: u8) -> bool
    ensures { result ≡ chains_in (T.thread threads) (λ q. get_or firsts q 0) t }
{
    let w = walk_to(threads, &firsts, 16, 33);
    !w.twice & !w.misplaced & none_missed(threads, w.met, t)
}
