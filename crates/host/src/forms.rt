// The closed sets of words in which a host is asked and answers.

// What a type is, as far as a search by name has to know.
#[derive(Clone, Copy, PartialEq, Eq)]
pub enum Form {
    Other,
    // A trait object; the definition is its principal trait.
    Dynamic,
    Adt,
    Foreign,
    Param,
    // Bool, Char, Int, Uint, Float, Str, Slice, Never or Tuple.
    Plain,
    Array,
    RawPtrMut,
    Ref,
    RefMut,
    RawPtrConst,
}

// What holds an item: an impl or a trait.
#[derive(Clone, Copy, PartialEq, Eq, Hash)]
pub enum ContainerKind {
    Impl,
    Trait,
}

// What an item is.
#[derive(Clone, Copy, PartialEq, Eq)]
pub enum Sort {
    Function,
    Const,
    Alias,
}

// How a candidate was found: in an impl, or in a trait by way of an object, the traits in scope, or a bound.
#[derive(Clone, Copy, PartialEq, Eq)]
pub enum CandidateClass {
    Impl,
    Object,
    Trait,
    Bound,
}

// How a step's type is tried: as it is, behind a new reference, or as a const pointer.
#[derive(Clone, Copy, PartialEq, Eq)]
pub enum Wrap {
    Bare,
    Ref,
    RefMut,
    ConstPtr,
}

// Whether a method is called on a value, or a path names an item.
#[derive(Clone, Copy, PartialEq, Eq)]
pub enum Mode {
    MethodCall,
    Path,
}

// The ten questions, without their arguments.
#[derive(Clone, Copy, PartialEq, Eq)]
pub enum QuestionKind {
    Form = 1,
    Own,
    Stray,
    Item,
    Bound,
    Supers,
    Visible,
    Skips,
    Applies,
    Source,
}

// What a host says of a type. A definition and the mark stand beside every form, as rows write them.
#[derive(Clone, Copy, PartialEq, Eq)]
pub struct TypeForm {
    pub form: Form,
    pub definition: u32,
    pub boxed_slice: bool,
}

// What a host says of an item.
#[derive(Clone, Copy, PartialEq, Eq)]
pub struct Item {
    pub name: u32,
    pub sort: Sort,
    pub has_self: bool,
}

// Which item: its container, and its place there.
#[derive(Clone, Copy, PartialEq, Eq)]
pub struct ItemId {
    pub kind: ContainerKind,
    pub container: u32,
    pub place: u32,
}

// A candidate tried on a type under a wrap: how it was found, where its item stands, and the type that offers it, which by
// rule is 0 where none does.
#[derive(Clone, Copy, PartialEq, Eq)]
pub struct Trial {
    pub class: CandidateClass,
    pub container: u32,
    pub place: u32,
    pub origin: u32,
    pub ty: u32,
    pub wrap: Wrap,
    pub mode: Mode,
}

// A trait's item, asked for at a type under a wrap.
#[derive(Clone, Copy, PartialEq, Eq)]
pub struct TraitItem {
    pub tr: u32,
    pub place: u32,
    pub ty: u32,
    pub wrap: Wrap,
    pub mode: Mode,
}
