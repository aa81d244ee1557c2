//! Why a port of this machine was not had.
ghost use Rattle.std.specs.Prelude.{◌≡◌, IfOk};
ghost use Rattle.std.specs.IoError.{error_kind};
ghost use Rattle.rtgs_cli.specs.serving.Serving.{failure_of_listening};

use crate::serving::service::Service;
use rtgs_book::Refusal;
use rtgs_cli_lines::Failure;
use rtgs_http_server::Port;
use std::io;
use std::io::ErrorKind;

/// Why a port of this machine was not had. Only to listen on one makes it.
#[derive(Drop)]
pub struct NoPort {
    error: io::Error,
}

impl NoPort {
    /// Listens on the port of a service for its connections.
    pub(in crate::serving) fn unless_listening(
        rt: &HostRuntime,
        service: &Service,
    ) -> Result<Port, NoPort>
        ensures { IfOk result (λ connections. connections.left ≡ service.now.count) }
    {
        match Port::listen(rt, service.port, service.count) {
            Ok(connections) => Ok(connections),
            Err(error) => Err(NoPort { error }),
        }
    }

    /// The failure that it is reported as.
    pub(in crate::serving) fn failure(&self) -> Failure
        ensures { result ≡ failure_of_listening (error_kind self.now.error) }
    {
        failure_of(self.error.kind())
    }
}

// What an error of listening means.
fn failure_of(kind: ErrorKind) -> Failure
    ensures { result ≡ failure_of_listening kind }
{
    match kind {
        ErrorKind::OutOfMemory => Failure::Refused(Refusal::OutOfMemory),
        _ => Failure::NoListen,
    }
}
