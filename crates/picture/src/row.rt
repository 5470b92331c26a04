// The records of a picture: each kind's bytes, and one record after the other.
ghost use Rattle.std.specs.Prelude.{◌≡◌, ◌≤◌, ◌+◌, ◌*◌, ℕ, List, length, drop, refl, get_or};
ghost use Rattle.std.proofs.Common.{rules};
ghost use Rattle.reference.specs.Lists.{tabulate};
ghost use Rattle.picture.specs.Picture.{processor_field, mutex_field, thread_field, from_record, one_of};
ghost use Rattle.picture.specs.Model.Parts.{over, rows, processor_bytes, mutex_bytes, thread_bytes};

use state::access::{Zero, at, put};
use state::layout::Width;
use state::{Mutex, Processor, Thread, Token};

// A kind of record: how wide it is, and how it is read and written. `first`: that of its own queue, which is in the record too.
pub(crate) trait Row: Zero {
    const WIDTH: usize;

    ghost WIDTH: { ℕ };

    ghost field: { List ℕ → Self };

    ghost bytes: { ℕ → Self → List ℕ };

    // The record that begins the bytes.
    fn read(b: &[u8]) -> Self
        ensures { result ≡ field b.now };

    // The record into the front, where it fits.
    fn write(self, first: u8, b: &mut [u8])
        ensures { b.new ≡ over b.old (bytes first self) };

    ghost narrow: { WIDTH ≤ 12 };

    ghost wide: { (first : ℕ) (x : Self) → length (bytes first x) ≡ WIDTH };
}

impl Row for Processor {
    const WIDTH: usize = Width::PROCESSOR;

    ghost WIDTH = { 12 };

    ghost field = { processor_field };

    ghost bytes = { processor_bytes };

    fn read(b: &[u8]) -> Processor {
        Processor {
            position: at(b, 0),
            current: at(b, 1),
            transit: at(b, 2),
            mutex: at(b, 3),
            observed: Token {
                processor: at(b, 4),
                sequence: two(at(b, 6), at(b, 7)),
            },
            sequence: two(at(b, 8), at(b, 9)),
            answer: at(b, 10),
            probe: at(b, 5),
        }
    }

    // kept: the bytes of a number one by one, each in its place; the edit low_byte_first exchanges two of them.
    fn write(self, first: u8, b: &mut [u8]) {
        let seen = self.observed.sequence;
        let own = self.sequence;
        store(
            b,
            &[
                self.position,
                self.current,
                self.transit,
                self.mutex,
                self.observed.processor,
                self.probe,
                (seen / 256) as u8,
                (seen % 256) as u8,
                (own / 256) as u8,
                (own % 256) as u8,
                self.answer,
                first,
            ],
        );
    }

    ghost narrow = { Prim.search rules };

    ghost wide = { λ first x. refl };
}

impl Row for Mutex {
    const WIDTH: usize = Width::MUTEX;

    ghost WIDTH = { 8 };

    ghost field = { mutex_field };

    ghost bytes = { mutex_bytes };

    fn read(b: &[u8]) -> Mutex {
        Mutex {
            count: at(b, 0),
            owner: at(b, 2),
            token: Token {
                processor: at(b, 3),
                sequence: two(at(b, 4), at(b, 5)),
            },
        }
    }

    fn write(self, first: u8, b: &mut [u8]) {
        let own = self.token.sequence;
        store(
            b,
            &[
                self.count,
                first,
                self.owner,
                self.token.processor,
                (own / 256) as u8,
                (own % 256) as u8,
                0,
                0,
            ],
        );
    }

    ghost narrow = { Prim.search rules };

    ghost wide = { λ first x. refl };
}

impl Row for Thread {
    const WIDTH: usize = Width::THREAD;

    ghost WIDTH = { 4 };

    ghost field = { thread_field };

    ghost bytes = { λ first x. thread_bytes x };

    fn read(b: &[u8]) -> Thread {
        Thread {
            status: at(b, 0),
            holder: at(b, 1),
            next: at(b, 2),
        }
    }

    fn write(self, first: u8, b: &mut [u8]) {
        store(b, &[self.status, self.holder, self.next, 0]);
    }

    ghost narrow = { Prim.search rules };

    ghost wide = { λ first x. refl };
}

// A two-byte field.
pub(crate) fn two(high: u8, low: u8) -> u16
    ensures { result ≡ 256 * high + low }
{
    u16::from_be_bytes([high, low])
}

// The bytes into the front, where they fit.
#[tactic(auto, using(crate::proofs::Over::room, crate::proofs::Over::no_room))]
pub(crate) fn store(b: &mut [u8], x: &[u8])
    ensures { b.new ≡ over b.old x.now }
{
    if x.len() <= b.len() {
        b[..x.len()].copy_from_slice(x);
    }
}

// The bytes from `start` on.
pub(crate) fn from(b: &[u8], start: usize) -> &[u8]
    ensures { result.now ≡ drop start b.now }
{
    if start <= b.len() { &b[start..] } else { &[] }
}

// The bytes from the i-th record on.
pub(crate) fn record<T: Row>(b: &[u8], i: u8) -> &[u8]
    ensures { result.now ≡ from_record T.WIDTH b.now i }
{
    from(b, T::WIDTH * (i.saturating_sub(1) as usize))
}

// The table of n records.
pub(crate) fn table<T: Row, const N: usize>(b: &[u8], n: u8) -> [T; N]
    ensures { result ≡ tabulate (λ i. one_of n i (T.field (from_record T.WIDTH b.now i)) T.zero) 0 N }
{
    let mut all = [T::zero(); N];
    for i in 0..n {
        put(&mut all, i as usize + 1, T::read(record::<T>(b, i + 1)));
    }
    all
}

// The records 1 to n one after the other, where they fit, each with its first.
pub(crate) fn put_table<T: Row>(b: &mut [u8], n: u8, firsts: &[u8], all: &[T])
    ensures { b.new ≡ over b.old (rows (λ i. T.bytes (get_or firsts.now i 0) (get_or all.now i T.zero)) 1 n) }
{
    if b.len() < T::WIDTH * (n as usize) {
        return;
    }
    for i in 0..n {
        let k = i as usize;
        let x = at(all, k + 1);
        x.write(at(firsts, k + 1), &mut b[T::WIDTH * k..]);
    }
}
