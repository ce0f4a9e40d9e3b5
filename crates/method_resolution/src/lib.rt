// The types of a method search by name, as in rust-analyzer's method resolution: what is asked, what is considered on the
// way, and what is answered. The definitions of the answer stand in specs/, the search itself in the crates above.
#![tactic(auto)]

mod kinds;
mod same;
mod theorems;

pub use host::ItemId as CandidateId;
use host::Wrap;
pub use theorems::every_question_has_one_answer;

// One autoderef step of a receiver: a type that the receiver can be turned into.
#[derive(Clone, Copy, PartialEq, Eq)]
pub struct CandidateStep {
    pub self_ty: u32,
    pub autoderefs: u32,
    // Reached by a dereference of a raw pointer.
    pub from_unsafe_deref: bool,
    // Reached by turning an array into a slice.
    pub unsize: bool,
    pub reachable_via_deref: bool,
    // Its type is an error.
    pub error_only: bool,
}

// A place, where candidates are tried: a step under a wrap.
#[derive(Clone, Copy, PartialEq, Eq)]
pub struct Place {
    pub step: CandidateStep,
    pub wrap: Wrap,
}

// The editions, oldest first.
#[derive(Clone, Copy, PartialEq, Eq, PartialOrd, Ord)]
pub enum Edition {
    Edition2015,
    Edition2018,
    Edition2021,
    Edition2024,
}

// What is settled for all searches of a resolver.
#[derive(Clone, Copy, PartialEq, Eq)]
pub struct Settings {
    pub edition: Edition,
    // Whether a subtrait's item hides its supertraits' items of the same name.
    pub supertrait_item_shadowing: bool,
}

// An item that may be meant, and how it was found.
#[derive(Clone, Copy, PartialEq, Eq)]
pub struct Candidate {
    pub item: CandidateId,
    pub kind: CandidateKind,
}

// How a candidate was found. Receiver steps are the autoderefs of the first step that offers the impl. The origin is the
// type of the step that offers an object's or a bound's trait.
#[derive(Clone, Copy, PartialEq, Eq)]
pub enum CandidateKind {
    InherentImplCandidate { receiver_steps: u32 },
    ObjectCandidate { origin: u32 },
    TraitCandidate,
    WhereClauseCandidate { origin: u32 },
}

// Where an ambiguous candidate comes from.
#[derive(Clone, Copy, PartialEq, Eq)]
pub enum CandidateSource {
    Impl(u32),
    Trait(u32),
}

// Whether a reference is mutable.
#[derive(Clone, Copy, PartialEq, Eq)]
pub enum Mutability {
    Not,
    Mut,
}

// What is done to the receiver after its dereferences.
#[derive(Clone, Copy, PartialEq, Eq)]
pub enum AutorefOrPtrAdjustment {
    // A new reference, and whether an array behind it becomes a slice.
    Autoref { mutbl: Mutability, unsize: bool },
    // A mutable raw pointer becomes a const one.
    ToConstPtr,
}

// How the item was found, with the number of its impl or trait.
#[derive(Clone, Copy, PartialEq, Eq)]
pub enum PickKind {
    InherentImplPick(u32),
    ObjectPick(u32),
    TraitPick(u32),
    // The trait of the bound, and the type that is bound.
    WhereClausePick { tr: u32, origin: u32 },
}

// A place's type: a step's type under a wrap.
#[derive(Clone, Copy, PartialEq, Eq)]
pub struct SelfTy {
    pub ty: u32,
    pub wrap: Wrap,
}

// The item that a name is bound to.
#[derive(Clone, Copy, PartialEq, Eq)]
pub struct Pick {
    pub item: CandidateId,
    pub kind: PickKind,
    pub autoderefs: u32,
    pub autoref_or_ptr_adjustment: Option<AutorefOrPtrAdjustment>,
    pub self_ty: SelfTy,
    // For an inherent impl only.
    pub receiver_steps: Option<u32>,
}

// Why no item is picked.
#[derive(Clone, Copy, PartialEq, Eq)]
pub enum MethodError {
    NoMatch,
    // The sources are in the caller's list.
    Ambiguity,
    // The only match is one that may not be named here.
    PrivateMatch(Pick),
}

// What the caller's list receives: the sources of an ambiguity, or the items that a pick shadows.
#[derive(Clone, Copy, PartialEq, Eq)]
pub enum ListEntry {
    Source(CandidateSource),
    Shadowed(CandidateId),
}

// A pick, or why there is none.
pub type PickResult = Result<Pick, MethodError>;

// The answer, and how many entries the list received from its front.
#[derive(Clone, Copy, PartialEq, Eq)]
pub struct Verdict {
    pub found: PickResult,
    pub count: usize,
}
