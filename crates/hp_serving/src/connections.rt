//! Where sessions come from.
ghost use Rattle.std.specs.Prelude.{◌≡◌, [], IfOk, Some};

use crate::endings::Endings;
use hp_order::Rest;
use hp_wire::ends::{Sink, Source};
use std::io;

/// A source of connections: what lines are read from, and what replies are written to.
pub trait Connections {
    type Reader: Source + Drop + Send;

    type Writer: Sink + Drop + Send;

    /// That a connection came which can't be opened. The source alone makes one.
    type Gone: Drop + Send;

    /// Why no more come. The source alone makes one.
    type Fault: Drop;

    /// Says where the connections are to be had, as soon as a worker waits for the first.
    fn announce(&mut self) -> io::Result<()> {
        Ok(())
    }

    /// The next connection, or that it can't be opened; then it counts as a session that ended. A source that waits for
    /// others to go learns from `ended` that one did. Its thread holds no lock meanwhile.
    fn next(
        &mut self,
        rest: &Rest,
        ended: &Endings,
    ) -> Result<Result<(Self::Reader, Self::Writer), Self::Gone>, Self::Fault>
        ensures same { IfOk result (λ came. IfOk came (λ ends.
            Self.Reader.connection ends.0 ≡ Self.Writer.connection ends.1)) }
        ensures unheard { IfOk result (λ came. IfOk came (λ ends.
            Self.Reader.heard ends.0 ≡ Some [])) }
        ensures unsaid { IfOk result (λ came. IfOk came (λ ends.
            Self.Writer.contents ends.1 ≡ Some [])) };
}
