//! Unix stream sockets over lists: each call on them as it is defined, with nothing of the heap. What a call comes to is asked
//! first, and changes nothing; then the sockets change, and the fronts of their queues with them.
#![tactic(auto)]

mod accepting;
mod changing;
mod closing;
mod moving;
mod polling;
mod socket;
mod sockets;
mod stage;

pub use accepting::Accepting;
pub use socket::Socket;
pub use sockets::Sockets;
