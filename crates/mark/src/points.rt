// The points that a candidate's picture earns, record by record, and the mark that they make.
ghost use Rattle.std.specs.Prelude.{◌≡◌, ◌+◌, ◌*◌, ◌/◌, ◌≤◌, length};
ghost use Rattle.mark.specs.Mark.{rows, agrees, earned, mark};
ghost use Rattle.mark.specs.Model.Comparable.{Comparable};

use state::layout::{Width, mutexes_at, threads_at};

// The points of a record that agrees.
const PROCESSOR: u32 = 5;

const MUTEX: u32 = 3;

const THREAD: u32 = 2;

// The mark for all points.
const FULL: u32 = 10000;

// The record that begins at byte `at` is the same in both.
pub(crate) fn agrees(machine: &[u8], candidate: &[u8], at: usize, width: usize) -> bool
    requires { (at + width ≤ length machine.now) × (at + width ≤ length candidate.now) }
    ensures { result ≡ agrees machine.now candidate.now (record { at = at; width = width; points = 0 }) }
{
    machine[at..at + width] == candidate[at..at + width]
}

// The points of n records of one kind, of which the first begins at byte `at`.
pub(crate) fn earned(
    machine: &[u8],
    candidate: &[u8],
    at: usize,
    width: usize,
    points: u32,
    n: u8,
) -> u32
    requires { (at + width * n ≤ length machine.now) × (at + width * n ≤ length candidate.now) × (points ≤ 5) }
    ensures { (result ≡ earned machine.now candidate.now (rows at width points n)) × (result ≤ points * n) }
{
    let mut sum: u32 = 0;
    let mut from = at;
    for _ in 0..n {
        if agrees(machine, candidate, from, width) {
            sum += points;
        }
        from += width;
    }
    sum
}

// The points over all possible, in hundredths and rounded down.
fn share(points: u32, possible: u32) -> u32
    requires { (points ≤ possible) × (1 ≤ possible) × (possible ≤ 255) }
    ensures { result ≡ 10000 * points / possible }
{
    FULL * points / possible
}

// The machine's header tells how many records there are.
pub(crate) fn mark_of(machine: &[u8], candidate: &[u8]) -> u16
    requires { Comparable machine.now candidate.now }
    ensures { result ≡ mark machine.now candidate.now }
{
    let p = machine[0];
    let t = machine[1];
    let m = machine[2];
    let processors = earned(
        machine,
        candidate,
        Width::HEADER,
        Width::PROCESSOR,
        PROCESSOR,
        p,
    );
    let mutexes = earned(machine, candidate, mutexes_at(p), Width::MUTEX, MUTEX, m);
    let threads = earned(
        machine,
        candidate,
        threads_at(p, m),
        Width::THREAD,
        THREAD,
        t,
    );
    let possible = PROCESSOR * (p as u32) + MUTEX * (m as u32) + THREAD * (t as u32);
    share(processors + mutexes + threads, possible) as u16
}
