//! Who has which key.
ghost use Rattle.std.specs.Prelude.{◌≡◌, ℕ, List, Option, Bool, true, IfOk, OnErr};

use rtgs_desk::Desk;
use rtgs_keeper::Keeper;
use rtgs_money::{Code, KeyDigest};

/// A directory that has failed tells nothing.
#[derive(Clone, Copy, Debug, PartialEq, Eq)]
pub struct DirectoryFailed;

/// Those who know the participants.
pub trait Directory {
    /// The participant with each digest, as far as the directory is to be believed.
    ghost knows: { Self → (List ℕ → Option (List ℕ)) → Type 0 };

    /// Whether it has failed, and tells nothing.
    ghost has_failed: { Self → Bool };

    /// The code of the participant with this digest, if there is one.
    fn code_of(&self, digest: &KeyDigest) -> Result<Option<Code>, DirectoryFailed>
        ensures found { IfOk result (λ code. (code_of : List ℕ → Option (List ℕ))
            → knows self.now code_of → code ≡ code_of digest.now) }
        ensures failed { OnErr result (has_failed self.now ≡ true) };
}

impl<K: Keeper> Directory for Desk<K> {
    ghost use Rattle.rtgs_http_server.specs.input.Known.{KnowsOf};

    // The participants are those that the desk has in memory. A desk that has failed shows nobody.
    ghost knows = { λ desk code_of. KnowsOf K.Keeper desk code_of };

    ghost has_failed = { λ desk. K.has_failed desk.keeper };

    fn code_of(&self, digest: &KeyDigest) -> Result<Option<Code>, DirectoryFailed> {
        match Desk::code_of(self, digest) {
            Ok(code) => Ok(code),
            Err(_) => Err(DirectoryFailed),
        }
    }
}
