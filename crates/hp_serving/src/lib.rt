//! Sessions over connections, served by several workers on one machine.
#![tactic(auto)]

mod backlog;
mod connection;
mod connections;
mod endings;
mod entry;
mod fault;
mod first_line;
mod host;
mod register;
mod right;
mod serving;
mod session;
mod sessions;
mod tally;
mod tcp;

pub use connections::Connections;
pub use endings::Endings;
pub use entry::{Entry, Outcome};
pub use fault::ServeFault;
pub use host::{Closed, Host, Machine};
pub use serving::{Stopped, serve};
pub use session::{Refused, serve_session};
pub use sessions::{Ended, report, serve_sessions};
pub use tcp::{Incoming, Listening, NotOpened, Outgoing};
