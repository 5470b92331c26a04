// Pictures of a state: writing one into a lent buffer, reading one from bytes; and turns ahead.
#![tactic(auto)]

ghost use Rattle.std.specs.Prelude.{◌≡◌, length};
ghost use Rattle.state.specs.Refusal.{outcome};
ghost use Rattle.picture.specs.Picture.{write_refusal, written, read, read_shown};
ghost use Rattle.picture.specs.Turns.{meaning, ahead, ahead_shown, answer};

mod reader;
mod row;
mod waiting;
pub mod writer;

use row::from;
use state::State;
use state::access::at;
use state::layout::threads_at;
use state::range::in_range;
use state::refusal::Refusal;

// The picture of a state into the buffer's front, its later bytes kept: 15, then 10.
#[tactic(auto, unfolding(state::specs::Refusal::outcome, state::specs::Refusal::number, crate::specs::Picture::written))]
pub fn write(s: State, buffer: &mut [u8]) -> Result<(), Refusal>
    ensures number { outcome result ≡ write_refusal s (length buffer.old) }
    ensures bytes { buffer.new ≡ written s buffer.old }
{
    if !rules::state_ok(s) {
        return Err(Refusal::BadRecord);
    }
    writer::put(buffer, s)
}

// The state that the bytes show: under 8 bytes 11, sizes 12, full length 11, then 12, 13, 14.
#[tactic(auto, unfolding(state::specs::Refusal::outcome, state::specs::Refusal::number, state::specs::Rules::broken_rule, crate::specs::Model::Parts::shape_refusal, crate::specs::Picture::read, crate::specs::Picture::read_refusal, crate::specs::Picture::read_shown))]
pub fn read(bytes: &[u8]) -> Result<State, Refusal>
    ensures { read_shown result ≡ read bytes.now }
{
    reader::shape(bytes)?;
    let part = from(bytes, threads_at(at(bytes, 0), at(bytes, 2)));
    let state = reader::fields(bytes, part);
    if !reader::zeros(bytes, part) {
        return Err(Refusal::BadField);
    }
    if !rules::field::fields_ok(state) {
        return Err(Refusal::BadField);
    }
    if !reader::chained(bytes, part, state) {
        return Err(Refusal::BadChain);
    }
    if !rules::holder::holders_ok(state) {
        return Err(Refusal::BadHolder);
    }
    Ok(state)
}

// How many threads get a thread's mutex before it: those in front of it in the queue, and the owner; none where it does not wait. 15, then 3.
#[tactic(auto, unfolding(state::specs::Refusal::number, crate::specs::Turns::ahead, crate::specs::Turns::ahead_shown, crate::specs::Turns::answer))]
pub fn ahead(s: State, thread: u8) -> Result<Option<u8>, Refusal>
    ensures shown { ahead_shown result ≡ ahead s thread }
    ensures means { meaning (ahead_shown result) ≡ answer s thread }
{
    if !rules::state_ok(s) {
        return Err(Refusal::BadRecord);
    }
    if !in_range(1, s.t, thread) {
        return Err(Refusal::BadOperand);
    }
    Ok(waiting::turns_ahead(s, thread))
}
