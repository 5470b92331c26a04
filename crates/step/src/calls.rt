// Counting calls: a list has a count for each thread number.
ghost use Rattle.std.specs.Prelude.{◌≡◌, eqb};
ghost use Rattle.reference.specs.Lists.{choose};
ghost use Rattle.step.specs.Model.Moves.{noted};

// One more call of thread k; a thread that has no place in the list is not counted.
pub(crate) fn note(calls: &mut [u16], k: u8)
    ensures { calls.new ≡ noted calls.old k }
{
    let i = k as usize;
    if i < calls.len() {
        calls[i] = calls[i].saturating_add(1);
    }
}

// The same where a move of thread k's processor is a call: its action is not 0.
pub fn note_move(calls: &mut [u16], action: u8, k: u8)
    ensures { calls.new ≡ choose (eqb action 0) calls.old (noted calls.old k) }
{
    if action != 0 {
        note(calls, k);
    }
}
