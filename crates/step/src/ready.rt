// The lines that see the ready queue: those of an idle processor, of yield and of create.
ghost use Rattle.std.specs.Prelude.{◌≡◌};
ghost use Rattle.step.specs.Model.Moves.{at_CI2, at_CI3, at_Y1, at_Y2, at_Y3, at_C2};

use crate::registers::{away, join_ready, load, next_probe, stays};
use crate::{Effect, Status, Transfer, View};
use state::Position;

// CI2: an idle processor takes a ready thread and probes from 0 again; from an empty queue the probe moves on to the next.
#[tactic(auto, unfolding(crate::specs::Model::Moves::at_CI2))]
pub(crate) fn ci2(v: View) -> Effect
    ensures { result ≡ at_CI2 v }
{
    let mut r = v.proc;
    let x = v.mutex;
    let Some(front) = v.ready else {
        r.probe = next_probe(v.queues, r.probe);
        return stays(away(r, Position::CI2), x);
    };
    r.transit = front.thread;
    r.probe = 0;
    Effect {
        proc: away(r, Position::CI3),
        mutex: x,
        transfer: Transfer::Take(v.index, front.thread, front.rest),
    }
}

// CI3 runs that thread.
#[tactic(auto, unfolding(crate::specs::Model::Moves::at_CI3))]
pub(crate) fn ci3(v: View) -> Effect
    ensures { result ≡ at_CI3 v }
{
    load(v)
}

// Y1: yield has no effect where no thread is ready.
#[tactic(auto, unfolding(crate::specs::Model::Moves::at_Y1))]
pub(crate) fn y1(v: View) -> Effect
    ensures { result ≡ at_Y1 v }
{
    let r = v.proc;
    let x = v.mutex;
    match v.ready {
        None => stays(away(r, Position::APP), x),
        Some(_) => stays(away(r, Position::Y2), x),
    }
}

// Y2: the current thread stops running,
#[tactic(auto, unfolding(crate::specs::Model::Moves::at_Y2))]
pub(crate) fn y2(v: View) -> Effect
    ensures { result ≡ at_Y2 v }
{
    let mut r = v.proc;
    let x = v.mutex;
    let k = r.current;
    r.current = 0;
    r.transit = k;
    Effect {
        proc: away(r, Position::Y3),
        mutex: x,
        transfer: Transfer::Mark(k, Status::TRANSIT, v.number),
    }
}

// Y3: and is ready, behind the others.
#[tactic(auto, unfolding(crate::specs::Model::Moves::at_Y3))]
pub(crate) fn y3(v: View) -> Effect
    ensures { result ≡ at_Y3 v }
{
    join_ready(v, Position::CI2)
}

// C2: the created thread is ready.
#[tactic(auto, unfolding(crate::specs::Model::Moves::at_C2))]
pub(crate) fn c2(v: View) -> Effect
    ensures { result ≡ at_C2 v }
{
    join_ready(v, Position::APP)
}
