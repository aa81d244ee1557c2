//! The values of the fields with one name.
ghost use Rattle.std.specs.Prelude.{◌∷◌, [], ◌++◌, List, ℕ};

/// The values of the fields with one name, as far as their number matters.
#[derive(Clone, Copy, Debug)]
pub enum NamedValues<'a> {
    None,
    One(&'a [u8]),
    More,
}

impl<'a> NamedValues<'a> {
    ghost use Rattle.rtgs_http_requests.specs.heads.NamedValues.{AreNamed};

    /// These values and one more behind them.
    pub fn with(self, value: &'a [u8]) -> NamedValues<'a>
        ensures { (values : List (List ℕ)) → AreNamed values self.entry → AreNamed (values ++ value.now ∷ []) result }
    {
        match self {
            NamedValues::None => NamedValues::One(value),
            NamedValues::One(_) | NamedValues::More => NamedValues::More,
        }
    }
}
