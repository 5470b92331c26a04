// Changes of numbers, registers and places that several lines make.
ghost use Rattle.std.specs.Prelude.{◌≡◌};
ghost use Rattle.state.specs.Record.{zero_token};
ghost use Rattle.step.specs.Model.Moves.{next_probe, away, on_mutex, observing, tokened, effect, load, join_ready, serve};

use crate::{Effect, Status, Transfer, View};
use state::access::Zero;
use state::queues::Front;
use state::{Mutex, Position, Processor, Token};

// The next look number on a ring of n: back to 0 after n - 1.
pub(crate) fn next_probe(n: u8, probe: u8) -> u8
    ensures { result ≡ next_probe n probe }
{
    if probe < n.saturating_sub(1) {
        probe + 1
    } else {
        0
    }
}

pub(crate) fn cleared(x: Mutex) -> Mutex
    ensures { result ≡ tokened zero_token x }
{
    Mutex {
        token: Token::zero(),
        ..x
    }
}

// To stand at a line that has no mutex.
pub(crate) fn away(r: Processor, position: u8) -> Processor
    ensures { result ≡ away position r }
{
    Processor {
        position,
        mutex: 0,
        observed: Token::zero(),
        ..r
    }
}

// To stand at a line that has a mutex and no observed token.
pub(crate) fn on_mutex(r: Processor, position: u8) -> Processor
    ensures { result ≡ on_mutex position r }
{
    observing(r, position, Token::zero())
}

// To stand at a line that has a mutex and an observed token. Kept field by field, as `by_fields` needs it.
pub(crate) fn observing(r: Processor, position: u8, token: Token) -> Processor
    ensures { result ≡ observing position token r }
{
    Processor {
        position,
        current: r.current,
        transit: r.transit,
        mutex: r.mutex,
        observed: Token {
            processor: token.processor,
            sequence: token.sequence,
        },
        sequence: r.sequence,
        answer: r.answer,
        probe: r.probe,
    }
}

// The same registers, field by field: a compiler then keeps each in a register of its own.
pub(crate) fn by_fields(r: Processor) -> Processor
    ensures { result ≡ r }
{
    observing(r, r.position, r.observed)
}

// The same of a mutex.
pub(crate) fn mutex_by_fields(x: Mutex) -> Mutex
    ensures { result ≡ x }
{
    let token = x.token;
    Mutex {
        count: x.count,
        owner: x.owner,
        token: Token {
            processor: token.processor,
            sequence: token.sequence,
        },
    }
}

// No thread moves.
pub(crate) fn stays(r: Processor, x: Mutex) -> Effect
    ensures { result ≡ effect r x Transfer.Stay }
{
    Effect {
        proc: r,
        mutex: mutex_by_fields(x),
        transfer: Transfer::Stay,
    }
}

// The thread in transit becomes the current one, at App.
pub(crate) fn load(v: View) -> Effect
    ensures { result ≡ load v }
{
    let mut r = v.proc;
    let x = v.mutex;
    let k = r.transit;
    r.current = k;
    r.transit = 0;
    Effect {
        proc: away(r, Position::APP),
        mutex: x,
        transfer: Transfer::Mark(k, Status::CURRENT, v.number),
    }
}

// The thread in transit joins the ready queue that the processor works on, and the processor stands at a line that has no mutex.
pub(crate) fn join_ready(v: View, position: u8) -> Effect
    ensures { result ≡ join_ready position v }
{
    let mut r = v.proc;
    let x = v.mutex;
    let k = r.transit;
    r.transit = 0;
    Effect {
        proc: away(r, position),
        mutex: x,
        transfer: Transfer::Join(v.index, k),
    }
}

// The front thread of the mutex's queue is in transit and owns the mutex.
pub(crate) fn serve(v: View, front: Front, position: u8) -> Effect
    ensures { result ≡ serve front.thread front.rest position v }
{
    let mut r = v.proc;
    let mut x = v.mutex;
    r.transit = front.thread;
    x.owner = front.thread;
    Effect {
        proc: on_mutex(r, position),
        mutex: x,
        transfer: Transfer::Take(r.mutex, front.thread, front.rest),
    }
}
