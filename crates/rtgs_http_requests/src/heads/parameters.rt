//! What a path gives.

/// What the parameters of a route took of the target, from left to right: each took one segment of the path that is not
/// empty. A parameter that the route has not is empty.
#[derive(Clone, Copy, Debug)]
pub struct Parameters<'a> {
    pub first: &'a str,
    pub second: &'a str,
}

impl Parameters<'static> {
    /// Those of a route without parameters.
    pub const NONE: Parameters<'static> = Parameters {
        first: "",
        second: "",
    };
}
