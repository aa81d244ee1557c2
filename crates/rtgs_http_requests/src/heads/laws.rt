//! Laws of the definitions. Each function does nothing: its contract is the law.
ghost use Rattle.std.specs.Prelude.{◌≡◌, ℕ, List, Option};
ghost use Rattle.httparse.specs.Grammar.{RequestHead};
ghost use Rattle.rtgs_http_requests.specs.heads.Fields.{Fields, HasKey};
ghost use Rattle.rtgs_http_requests.specs.heads.Heads.{IsGoodHead};

/// A region is one good head at most, and declares one length at most.
pub fn heads_are_determined()
    ensures head { (region : List ℕ) (one other : RequestHead) (declared more : Option ℕ)
        → IsGoodHead region one declared → IsGoodHead region other more → one ≡ other }
    ensures length { (region : List ℕ) (one other : RequestHead) (declared more : Option ℕ)
        → IsGoodHead region one declared → IsGoodHead region other more → declared ≡ more }
{}

/// Fields have one key at most.
pub fn keys_are_determined()
    ensures { (fields : Fields) (one other : Option (List ℕ)) → HasKey fields one → HasKey fields other → one ≡ other }
{}
