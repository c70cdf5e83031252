// What holds of the definitions themselves: each law is the contract of a function that does nothing.
ghost use Rattle.std.specs.Prelude.{◌≡◌, ℕ, List};
ghost use Rattle.zw_calls.specs.Requests.{Request, Spells};

/// Words spell one request at most.
pub fn one_request()
    ensures { (words : List (List ℕ)) (a b : Request) → Spells words a → Spells words b → a ≡ b }
{}
