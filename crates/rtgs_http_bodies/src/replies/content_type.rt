//! What a reply's body is.
ghost use Rattle.std.specs.Prelude.{◌≡◌};

/// What a reply's body is.
#[derive(Clone, Copy, Debug, PartialEq, Eq)]
pub enum ContentType {
    Json,
    /// The result file of a batch, or the orders or the marks of a date.
    Csv,
    /// A statement or a report.
    Plain,
}

impl ContentType {
    ghost use Rattle.rtgs_http_bodies.specs.replies.Texts.{content_name};

    /// Its name in the head of a reply.
    pub fn name(self) -> &'static str
        ensures { result.now ≡ content_name self }
    {
        match self {
            ContentType::Json => "application/json",
            ContentType::Csv => "text/csv",
            ContentType::Plain => "text/plain",
        }
    }
}
