// Rule 14: current and transit registers against statuses 3 and 4.
ghost use Rattle.std.specs.Prelude.{◌≡◌};
ghost use Rattle.state.specs.Record.{thread_in, processor_in};
ghost use Rattle.state.specs.Rules.{holders_ok};
ghost use Rattle.reference.specs.Lists.{each};
ghost use Rattle.rules.specs.Model.Holder.{register_holds, registers_hold, thread_held};

use state::access::at;
use state::range::each;
use state::{Processor, State, Thread};

// Register k of processor p, where x is thread k: it is empty, or x has this status and is held by p.
fn register_matches(x: Thread, status: u8, p: u8, k: u8) -> bool
    ensures { result ≡ register_holds x status p k }
{
    (k == 0) | ((x.status == status) & (x.holder == p))
}

// Thread k with the record x is in the register of its holder that its status names.
fn thread_matches(x: Thread, holder: Processor, k: u8) -> bool
    ensures { result ≡ thread_held x holder k }
{
    (!(x.status == 3) | (holder.current == k)) & (!(x.status == 4) | (holder.transit == k))
}

fn registers_match(threads: [Thread; 33], processors: [Processor; 9], n: u8) -> bool
    ensures { result ≡ each (λ p. registers_hold threads processors p) 1 n }
{
    each(1, n, |p| {
        let x = at(&processors, p as usize);
        register_matches(at(&threads, x.current as usize), 3, p, x.current)
            & register_matches(at(&threads, x.transit as usize), 4, p, x.transit)
    })
}

fn threads_match(threads: [Thread; 33], processors: [Processor; 9], n: u8) -> bool
    ensures { result ≡ each (λ k. thread_held (thread_in threads k) (processor_in processors (thread_in threads k).holder) k) 1 n }
{
    each(1, n, |k| {
        let x = at(&threads, k as usize);
        thread_matches(x, at(&processors, x.holder as usize), k)
    })
}

#[tactic(auto, unfolding(state::specs::Rules::holders_ok))]
pub fn holders_ok(s: State) -> bool
    ensures { result ≡ holders_ok s }
{
    registers_match(s.chains.threads, s.processors, s.p)
        & threads_match(s.chains.threads, s.processors, s.t)
}
