//! Until when something may wait.
ghost use Rattle.std.specs.Prelude.{◌<◌, IfOk};
ghost use Rattle.std.specs.Duration.{as_nanos};

use std::io;
use std::io::ErrorKind;
use std::time::{Duration, Instant};

/// A moment until which something may wait.
#[derive(Clone, Copy)]
pub(crate) struct Deadline {
    rt: HostRuntime,
    at: Instant,
}

impl Deadline {
    /// The moment this many seconds from now. The error is the system's, which did not tell the time, or `TimedOut`
    /// past the end of its clock.
    pub(crate) fn after(rt: &HostRuntime, seconds: u64) -> io::Result<Deadline> {
        match Instant::now(rt)?.checked_add(Duration::from_secs(seconds)) {
            Some(at) => Ok(Deadline { rt: *rt, at }),
            None => Err(io::Error::from(ErrorKind::TimedOut)),
        }
    }

    /// The time that is left. The error is `TimedOut` where none is, or the system's, which did not tell the time.
    pub(crate) fn left(&self) -> io::Result<Duration>
        ensures { IfOk result (λ left. 0 < as_nanos left) }
    {
        let left = self.at.duration_since(Instant::now(&self.rt)?);
        if left.is_zero() {
            return Err(io::Error::from(ErrorKind::TimedOut));
        }
        Ok(left)
    }
}
