//! What a run used beside the file of its book.

/// What a run used beside the file of its book, once its desk was open. It is there for contracts, which say by it what
/// the system answered. `F` stands for the answer to reading a file of orders, `P` for a port that was had, and `N` for
/// the answer that there was none: a run that meets no such thing is of any type for it.
#[derive(Drop)]
pub enum Used<F, P, N> {
    Nothing,
    /// A file of orders: what reading it answered.
    Orders(F),
    /// A port: as it was left.
    Port(P),
    /// A port that was not had: what listening on it answered.
    NoPort(N),
}
