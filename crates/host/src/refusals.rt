// Why a call was refused.
ghost use Rattle.std.specs.Prelude.{◌≡◌};
ghost use Rattle.host.specs.Numbers.{refusal_number};

// One case for each check that can fail, named after what was wrong.
#[derive(Clone, Copy, PartialEq, Eq)]
pub enum Refusal {
    ListTooShort = 1,
    TooManySteps = 2,
    TooManyAutoderefs = 3,
    TooManyCandidates = 4,
    TooManyImpls = 5,
    TooManyTraits = 6,
    TooManyClaims = 7,
    ForeignClaim = 8,
    NoClaimOut = 9,
    MalformedTables = 10,
    UnlawfulSupertraits = 11,
}

impl From<Refusal> for u32 {
    ghost from_gives = { λ refusal n. n ≡ refusal_number refusal };

    fn from(refusal: Refusal) -> u32 {
        refusal as u32
    }
}
