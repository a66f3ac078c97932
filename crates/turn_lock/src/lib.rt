//! A ticket lock over a value that counts what each caller committed.
//!
//! A caller draws a ticket, waits until it is served, and has the value until it gives the value back. Its seat knows
//! how many entries each caller that it speaks for has committed since the lock was made, and how much was committed
//! when it last gave the value back.
#![tactic(auto)]

mod kept;
mod lock;
mod seat;
mod steps;
mod view;

pub use kept::Kept;
pub use lock::{NoRoom, TurnLock};
pub use seat::{Seat, Turn};
