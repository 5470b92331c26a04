// A session's bytes at the front of a buffer, read and written.
ghost use Rattle.std.specs.Prelude.{◌≡◌, ◌+◌, ◌*◌};
ghost use Rattle.state.specs.Record.{zero_session};
ghost use Rattle.reference.specs.Lists.{with_front};
ghost use Rattle.stored.specs.Stored.{session_bytes, session_in};
ghost use Rattle.stored.specs.Model.Writable.{Writable};

use picture::writer;
use state::access::{at, put};
use state::layout::picture_bytes;
use state::{Session, State};

// A two-byte field.
fn two(high: u8, low: u8) -> u16
    ensures { result ≡ 256 * high + low }
{
    u16::from_be_bytes([high, low])
}

// The all-zero record, for bytes that are no session.
fn none() -> Session
    ensures { result ≡ zero_session }
{
    Session {
        state: State::zero(),
        initial: 0,
        kept: 0,
    }
}

// The session at the front of the bytes.
pub(crate) fn read(bytes: &[u8]) -> Session
    ensures { result ≡ session_in bytes.now }
{
    let end = picture_bytes(at(bytes, 0), at(bytes, 1), at(bytes, 2));
    if bytes.len() < end + 3 {
        return none();
    }
    match picture::read(&bytes[..end]) {
        Ok(state) => Session {
            state,
            initial: at(bytes, end),
            kept: two(at(bytes, end + 1), at(bytes, end + 2)),
        },
        Err(_) => none(),
    }
}

// A session's bytes into the front, the later bytes kept.
pub(crate) fn write(bytes: &mut [u8], session: Session)
    requires { Writable session bytes.old }
    ensures { bytes.new ≡ with_front bytes.old (session_bytes session) }
{
    let state = session.state;
    let end = picture_bytes(state.p, state.t, state.m);
    let _fits = writer::put(bytes, state);
    let [high, low] = session.kept.to_be_bytes();
    put(bytes, end, session.initial);
    put(bytes, end + 1, high);
    put(bytes, end + 2, low);
}
