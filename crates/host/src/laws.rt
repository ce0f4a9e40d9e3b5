// What holds of every host, as contracts, so that the check asks for the proofs.
ghost use Rattle.std.specs.Prelude.{◌≡◌};
ghost use Rattle.host.specs.Law.{Lawful};
ghost use Rattle.host.specs.Questions.{Alike};

use super::Host;

// Any host keeps the list law and the supertrait law.
pub fn hosts_are_lawful<H: Host>(host: &H)
    ensures { Lawful (H.Host.meaning host.now) }
{}

// Hosts of any two kinds that answer alike whatever can be asked have one meaning.
pub fn alike_hosts_have_one_meaning<A: Host, B: Host>(a: &A, b: &B)
    ensures { Alike (A.Host.meaning a.now) (B.Host.meaning b.now) → A.Host.meaning a.now ≡ B.Host.meaning b.now }
{}
