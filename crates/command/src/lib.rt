// The programs' lines: reading them, which command or request a line is, and the bytes of a response.
#![tactic(auto)]

mod hex;
pub mod input;
pub mod line;
pub mod printing;
pub mod program;
pub mod reading;
pub mod request;

// start P T M B, the same with a fifth number, move p a o, goto k, show; any other line is Unknown.
#[derive(Clone, Copy)]
pub enum Command {
    Start(u8, u8, u8, u8),
    StartWith(u8, u8, u8, u8, u8),
    Move(u8, u8, u8),
    Goto(u16),
    Show,
    Unknown,
}
