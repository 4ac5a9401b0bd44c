//! Unix stream sockets in the kernel's heap, apart from the paths that name them: made, connected, read, written, shut,
//! closed and polled.
//!
//! A socket is in the heap while a description names it or while it waits to be accepted. The bytes that it is to read
//! belong to it. A call answers at once what POSIX says; one that would have to wait says so and changes nothing.
#![tactic(auto)]

mod accepted;
mod accepting;
mod closing;
mod connecting;
pub mod laws;
mod making;
mod naming;
mod polling;
mod reading;
mod steps;
mod writing;

pub use accepted::Accepted;
pub use accepting::{accept, accept_waits};
pub use closing::{close_sock, shutdown};
pub use connecting::{can_connect, connect};
pub use making::{sock_make, sock_pair};
pub use naming::{can_bind, listen, name_sock};
pub use polling::sock_polled;
pub use reading::{sock_read, sock_read_waits};
pub use writing::{sock_is_unread, sock_write, sock_write_waits};
