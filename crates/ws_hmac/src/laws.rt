// What holds of every signature.
ghost use Rattle.std.specs.Prelude.{◌≡◌, List, ℕ, true};
ghost use Rattle.ws_model.specs.declared.event.Alg.{Alg};
ghost use Rattle.ws_hmac.specs.Sign.{sign, is_signature};

/// A law: the signature of a body, by any method and secret, is one that `check` takes.
pub fn own_signature_checks()
    ensures { (alg : Alg) (secret body : List ℕ) → is_signature (sign alg secret body) secret body ≡ true }
{}
