// What holds of the calls on every scope, as contracts, so that the check asks for the proofs.
ghost use Rattle.scope.specs.Scopes.{Admits, Releases, Determined};

// What a scope and a trait are determines what a call answers and what is held after it.
pub fn outcomes_are_determined()
    ensures admit { Determined Admits }
    ensures release { Determined Releases }
{}
