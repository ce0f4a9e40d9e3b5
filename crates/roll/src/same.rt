ghost use Rattle.std.specs.Prelude.{◌≡◌, Bool, true, nat_eq};
ghost use Rattle.std.proofs.Common.{rules};

// An equality that is an equivalence. It is a trait beside `Eq` because it may be coarser than `==`, of which a type has one:
// candidates of a search are the same if their items are, and `==` compares how they were found too.
pub trait Same {
    ghost same: { Self → Self → Bool };

    fn is_same(&self, other: &Self) -> bool
        ensures { result ≡ same self.now other.now };

    ghost reflexive: { (x : Self) → same x x ≡ true };

    ghost symmetric: { (x y : Self) → same x y ≡ true → same y x ≡ true };

    ghost transitive: { (x y z : Self) → same x y ≡ true → same y z ≡ true → same x z ≡ true };
}

impl Same for u32 {
    ghost same = { nat_eq };

    ghost reflexive = { Prim.search rules };

    ghost symmetric = { Prim.search rules };

    ghost transitive = { Prim.search rules };

    fn is_same(&self, other: &u32) -> bool {
        *self == *other
    }
}
