// What a method search asks of a host, and what a host owes.
#![tactic(auto)]

ghost use Rattle.std.specs.Prelude.{◌≡◌};
ghost use Rattle.host.specs.Law.{Lawful};
ghost use Rattle.host.specs.Meaning.{Meaning};

mod empty;
mod forms;
mod identity;
mod laws;
mod lending;
mod numbers;
mod questions;
mod refusals;

pub use empty::EmptyHost;
pub use forms::{
    CandidateClass, ContainerKind, Form, Item, ItemId, Mode, QuestionKind, Sort, TraitItem, Trial,
    TypeForm, Wrap,
};
pub use laws::{alike_hosts_have_one_meaning, hosts_are_lawful};
pub use lending::Lent;
pub use numbers::{Numbered, UnknownNumber};
pub use questions::{Answer, Question, ask};
pub use refusals::Refusal;

// How many entries a list has at most.
pub const MOST_ENTRIES: u32 = 64;

// A host answers for the compiler's tables: ten questions about types, impls, traits and items, each by number. Asking
// changes nothing. Questions 2 to 6 ask for one entry of a list, by its place from 0 on; past the end it is absent.
pub trait Host {
    // All answers.
    ghost meaning: { Self → Meaning };

    ghost lawful: { (h : Self) → Lawful (meaning h) };

    // 1: what a type is.
    fn form(&self, ty: u32) -> TypeForm
        ensures { result ≡ (meaning self.now).form ty };

    // 2: the inherent impls of a type.
    fn own(&self, ty: u32, place: u32) -> Option<u32>
        ensures { result ≡ (meaning self.now).own ty place };

    // 3: its incoherent impls, which stand outside the crate that has the type.
    fn stray(&self, ty: u32, place: u32) -> Option<u32>
        ensures { result ≡ (meaning self.now).stray ty place };

    // 4: the items of an impl or a trait, by their places.
    fn item(&self, at: ItemId) -> Option<Item>
        ensures { result ≡ (meaning self.now).item at.kind at.container at.place };

    // 5: the traits by which a type parameter is bound.
    fn bound(&self, ty: u32, place: u32) -> Option<u32>
        ensures { result ≡ (meaning self.now).bound ty place };

    // 6: a trait and the traits above it.
    fn supers(&self, tr: u32, place: u32) -> Option<u32>
        ensures { result ≡ (meaning self.now).supers tr place };

    // 7: whether an item may be named from where the call stands.
    fn visible(&self, item: ItemId) -> bool
        ensures { result ≡ (meaning self.now).visible item.kind item.container item.place };

    // 8: whether older editions pass over a trait's methods on arrays, and on boxed slices; both together, by rule.
    fn skips(&self, tr: u32) -> (bool, bool)
        ensures { result ≡ (meaning self.now).skips tr };

    // 9: whether a candidate applies to a type under a wrap.
    fn applies(&self, trial: Trial) -> bool
        ensures { result ≡ (meaning self.now).applies trial.class trial.container trial.place trial.origin trial.ty trial.wrap trial.mode };

    // 10: the one impl that a trait's item comes from there, if the host can tell.
    fn source(&self, item: TraitItem) -> Option<u32>
        ensures { result ≡ (meaning self.now).source item.tr item.place item.ty item.wrap item.mode };
}
