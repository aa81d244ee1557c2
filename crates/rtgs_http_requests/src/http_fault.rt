//! Faults of requests.
ghost use Rattle.std.specs.Prelude.{◌≡◌};
ghost use Rattle.rtgs_http_requests.specs.Faults.{http_kind_of};

use crate::heads::HeadFault;
use rtgs_money::Lexical;
use rtgs_order_files::BatchFault;
use rtgs_refusals::RefusalKind;

/// Why a request asks for nothing.
#[derive(Clone, Copy, Debug, PartialEq, Eq)]
pub enum HttpFault {
    /// The region is no head that the desk serves.
    BadHead,
    /// As many bytes as a head may have hold no end of one.
    HeadTooLong,
    /// A POST declares no length.
    NoLength,
    /// The body is to have more bytes than one may have.
    BodyTooLong,
    /// The input ended too soon.
    Truncated,
    /// The body is no value of JSON.
    BadJson,
    /// The body's value has not exactly the route's keys, of their kinds.
    WrongFields,
    /// No route has the method and the target.
    NoSuchRoute,
    /// The route does not take the caller.
    NoKey,
    /// A value is not of its form.
    Form(Lexical),
    /// The body is no order file.
    Batch(BatchFault),
    OutOfMemory,
}

impl HttpFault {
    /// What the fault is known by: its number, its name and the status of the HTTP reply.
    pub fn kind(self) -> RefusalKind
        ensures { result ≡ http_kind_of self }
    {
        match self {
            HttpFault::BadHead => RefusalKind::BadHead,
            HttpFault::HeadTooLong => RefusalKind::HeadTooLong,
            HttpFault::NoLength => RefusalKind::NoLength,
            HttpFault::BodyTooLong => RefusalKind::BodyTooLong,
            HttpFault::Truncated => RefusalKind::Truncated,
            HttpFault::BadJson => RefusalKind::BadJson,
            HttpFault::WrongFields => RefusalKind::WrongFields,
            HttpFault::NoSuchRoute => RefusalKind::NoSuchRoute,
            HttpFault::NoKey => RefusalKind::NoKey,
            HttpFault::Form(form) => form.kind(),
            HttpFault::Batch(fault) => fault.kind(),
            HttpFault::OutOfMemory => RefusalKind::OutOfMemory,
        }
    }
}

impl From<Lexical> for HttpFault {
    ghost use Rattle.rtgs_http_requests.specs.declared.http_fault.HttpFault.TheVariants.{Form};

    ghost from_gives = { λ form fault. fault ≡ Form form };

    fn from(form: Lexical) -> HttpFault {
        HttpFault::Form(form)
    }
}

impl From<HeadFault> for HttpFault {
    ghost use Rattle.rtgs_http_requests.specs.Faults.{of_head};

    ghost from_gives = { λ fault given. given ≡ of_head fault };

    fn from(fault: HeadFault) -> HttpFault {
        match fault {
            HeadFault::BadHead => HttpFault::BadHead,
            HeadFault::NoSuchRoute => HttpFault::NoSuchRoute,
            HeadFault::OutOfMemory => HttpFault::OutOfMemory,
        }
    }
}

impl From<BatchFault> for HttpFault {
    ghost use Rattle.rtgs_http_requests.specs.Faults.{of_batch};

    ghost from_gives = { λ fault given. given ≡ of_batch fault };

    fn from(fault: BatchFault) -> HttpFault {
        match fault {
            BatchFault::OutOfMemory => HttpFault::OutOfMemory,
            _ => HttpFault::Batch(fault),
        }
    }
}
