// Rule 12: sizes, fields and registers.
ghost use Rattle.std.specs.Prelude.{◌≡◌, ◌&&◌, get_or};
ghost use Rattle.state.specs.Record.{thread_in, processor_in, mutex_in};
ghost use Rattle.reference.specs.Lists.{in_range, each};
ghost use Rattle.reference.specs.State.{queues};
ghost use Rattle.state.specs.Rules.{token_ok, probe_ok, processor_ok, mutex_ok, holder_ok, next_ok, thread_ok, first_ok, fields_ok};

use crate::register::{CURRENT, MUTEX, OBSERVED, TRANSIT, column, register_ok};
use state::access::at;
use state::queues::ready_queues;
use state::range::{each, in_range};
use state::{Mutex, Processor, State, Thread, Token};

// How many processors, threads and mutexes there are, and the choice of ready queues: what the tests of fields compare with.
#[derive(Clone, Copy, Debug, PartialEq, Eq)]
pub struct Sizes {
    pub p: u8,
    pub t: u8,
    pub m: u8,
    pub stealing: u8,
}

impl Sizes {
    pub fn fit(self) -> bool
        ensures { result ≡ in_range 1 8 self.p && in_range 1 32 self.t && in_range 1 8 self.m }
    {
        in_range(1, 8, self.p) & in_range(1, 32, self.t) & in_range(1, 8, self.m)
    }

    fn token_ok(self, t: Token) -> bool
        ensures { result ≡ token_ok self.p t }
    {
        (t.processor <= self.p)
            & (t.sequence <= 4000)
            & (((t.processor == 0) & (t.sequence == 0)) | ((0 < t.processor) & (0 < t.sequence)))
    }

    #[tactic(auto, unfolding(state::specs::Rules::processor_ok))]
    fn processor_ok(self, x: Processor) -> bool
        ensures { result ≡ processor_ok self.p self.t self.m (queues self.stealing self.p) x }
    {
        let n = ready_queues(self.stealing, self.p);
        let line = x.position;
        (line <= 24)
            & register_ok(column(CURRENT, line, 1), self.t, x.current)
            & register_ok(column(TRANSIT, line, 0), self.t, x.transit)
            & register_ok(column(MUTEX, line, 0), self.m, x.mutex)
            & register_ok(column(OBSERVED, line, 0), self.p, x.observed.processor)
            & self.token_ok(x.observed)
            & (x.sequence <= 4000)
            & (x.answer <= 2)
            & probe_ok(n, line, x.probe)
    }

    #[tactic(auto, unfolding(state::specs::Rules::mutex_ok))]
    fn mutex_ok(self, x: Mutex) -> bool
        ensures { result ≡ mutex_ok self.p self.t x }
    {
        ((x.count as u16) <= (self.t as u16) + 1) & (x.owner <= self.t) & self.token_ok(x.token)
    }

    fn holder_ok(self, x: Thread) -> bool
        ensures { result ≡ holder_ok self.p self.m self.stealing x }
    {
        if x.status == 2 {
            return in_range(1, self.m, x.holder);
        }
        let held = (x.status == 3) | (x.status == 4) | ((x.status == 1) & (self.stealing == 1));
        if held {
            in_range(1, self.p, x.holder)
        } else {
            x.holder == 0
        }
    }

    fn next_ok(self, x: Thread) -> bool
        ensures { result ≡ next_ok self.t x }
    {
        let queued = (x.status == 1) | (x.status == 2);
        if queued {
            x.next <= self.t
        } else {
            x.next == 0
        }
    }

    #[tactic(auto, unfolding(state::specs::Rules::thread_ok))]
    fn thread_ok(self, x: Thread) -> bool
        ensures { result ≡ thread_ok self.p self.t self.m self.stealing x }
    {
        (x.status <= 5) & self.holder_ok(x) & self.next_ok(x)
    }

    // Queue q is there, its first a thread or none; or it is not there and has none.
    fn first_ok(self, q: u8, first: u8) -> bool
        ensures { result ≡ first_ok self.p self.t self.m self.stealing q first }
    {
        let own = if self.stealing == 0 {
            q == 0
        } else {
            (9 <= q) & ((q as u16) <= 8 + (self.p as u16))
        };
        if in_range(1, self.m, q) | own {
            first <= self.t
        } else {
            first == 0
        }
    }
}

// CI2 alone has a look number, below n.
fn probe_ok(n: u8, position: u8, probe: u8) -> bool
    ensures { result ≡ probe_ok n position probe }
{
    if position == 1 {
        probe <= n.saturating_sub(1)
    } else {
        probe == 0
    }
}

#[tactic(auto, unfolding(state::specs::Rules::fields_ok))]
pub fn fields_ok(s: State) -> bool
    ensures { result ≡ fields_ok s }
{
    let sizes = Sizes {
        p: s.p,
        t: s.t,
        m: s.m,
        stealing: s.stealing,
    };
    let firsts = s.chains.firsts;
    let threads = s.chains.threads;
    sizes.fit()
        & (s.stealing <= 1)
        & (s.applied <= 4000)
        & each(0, 17, |q| sizes.first_ok(q, at(&firsts, q as usize)))
        & each(
            1,
            s.p,
            |i| sizes.processor_ok(at(&s.processors, i as usize)),
        )
        & each(1, s.m, |i| sizes.mutex_ok(at(&s.mutexes, i as usize)))
        & each(1, s.t, |k| sizes.thread_ok(at(&threads, k as usize)))
}
