// The parts of a picture, read from bytes: past their end there are zeros. `part` is the bytes from the thread records on.
ghost use Rattle.std.specs.Prelude.{◌≡◌};
ghost use Rattle.state.specs.Refusal.{outcome};
ghost use Rattle.state.specs.Rules.{chains_ok};
ghost use Rattle.picture.specs.Picture.{first_read, threads_part, fields, zero_bytes_ok};
ghost use Rattle.picture.specs.Model.Parts.{shape_refusal};

use crate::row::{from, record, table, two};
use rules::field::Sizes;
use state::access::at;
use state::layout::{Width, mutexes_at, picture_bytes};
use state::range::each;
use state::refusal::Refusal;
use state::{Chains, Mutex, Processor, State, Thread};
use std::array;

// The first of queue q: of the single ready queue in the header, of a mutex's and of a processor's in its record.
fn first<'a>(ready: u8, processors: &'a [u8], p: u8, mutexes: &'a [u8], m: u8, q: u8) -> u8
    ensures { result ≡ first_read ready processors.now p mutexes.now m q }
{
    if q == 0 {
        return ready;
    }
    if q <= 8 {
        if q <= m {
            return at(record::<Mutex>(mutexes, q), 1);
        }
        return 0;
    }
    if q - 8 <= p {
        return at(record::<Processor>(processors, q - 8), 11);
    }
    0
}

// The record of a picture's bytes.
#[tactic(auto, unfolding(crate::specs::Picture::fields))]
pub(crate) fn fields<'a>(b: &'a [u8], part: &'a [u8]) -> State
    requires { part.now ≡ threads_part b.now }
    ensures { result ≡ fields b.now }
{
    let p = at(b, 0);
    let t = at(b, 1);
    let m = at(b, 2);
    let ready = at(b, 3);
    let processors = from(b, Width::HEADER);
    let mutexes = from(b, mutexes_at(p));
    State {
        p,
        t,
        m,
        stealing: at(b, 7),
        applied: two(at(b, 4), at(b, 5)),
        chains: Chains {
            firsts: array::from_fn(|q| first(ready, processors, p, mutexes, m, q as u8)),
            threads: table::<Thread, 33>(part, t),
        },
        processors: table::<Processor, 9>(processors, p),
        mutexes: table::<Mutex, 9>(mutexes, m),
    }
}

// The unnamed bytes of a picture are zero.
#[tactic(auto, unfolding(crate::specs::Picture::zero_bytes_ok))]
pub(crate) fn zeros<'a>(b: &'a [u8], part: &'a [u8]) -> bool
    requires { part.now ≡ threads_part b.now }
    ensures { result ≡ zero_bytes_ok b.now }
{
    let mutexes = from(b, mutexes_at(at(b, 0)));
    (at(b, 6) == 0)
        & each(1, at(b, 2), |i| {
            let x = Width::MUTEX * (i.saturating_sub(1) as usize);
            (at(mutexes, x + 6) == 0) & (at(mutexes, x + 7) == 0)
        })
        & each(
            1,
            at(b, 1),
            |k| at(part, Width::THREAD * (k.saturating_sub(1) as usize) + 3) == 0,
        )
}

// Rule 13 of a record that was read, its chains walked in the part.
pub(crate) fn chained<'a>(b: &'a [u8], part: &'a [u8], s: State) -> bool
    requires shape { shape_refusal b.now ≡ 0 }
    requires part { part.now ≡ threads_part b.now }
    requires record { s ≡ fields b.now }
    ensures { result ≡ chains_ok s }
{
    rules::chain::chains_ok(part, s.chains.firsts, s.t)
}

// The length and the sizes: under 8 bytes 11, sizes 12, full length 11.
#[tactic(auto, unfolding(state::specs::Refusal::outcome, state::specs::Refusal::number, crate::specs::Picture::fields, crate::specs::Model::Parts::shape_refusal))]
pub(crate) fn shape(b: &[u8]) -> Result<(), Refusal>
    ensures { outcome result ≡ shape_refusal b.now }
{
    if b.len() < Width::HEADER {
        return Err(Refusal::BadLength);
    }
    let sizes = Sizes {
        p: at(b, 0),
        t: at(b, 1),
        m: at(b, 2),
        stealing: at(b, 7),
    };
    if !sizes.fit() {
        return Err(Refusal::BadField);
    }
    if b.len() != picture_bytes(sizes.p, sizes.t, sizes.m) {
        return Err(Refusal::BadLength);
    }
    Ok(())
}
