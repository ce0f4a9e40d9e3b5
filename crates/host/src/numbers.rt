// The numbers by which rows and scripts write the closed sets. Each set has its own impls: one match is plainer than a
// search in a table of members, and no macro of ours may write an impl.
ghost use Rattle.std.specs.Prelude.{◌≡◌, ℕ, Result};
ghost use Rattle.std.proofs.Common.{rules};
ghost use Rattle.host.specs.declared.numbers.UnknownNumber.{UnknownNumber};
ghost use Rattle.host.specs.Numbers.{Reads, form_number, container_number, sort_number, class_number, wrap_number, mode_number, question_number};

use super::forms::{CandidateClass, ContainerKind, Form, Mode, QuestionKind, Sort, Wrap};

// A number that no member of the closed set has.
#[derive(Clone, Copy, PartialEq, Eq)]
pub struct UnknownNumber(pub u32);

// A closed set in which each member has a number of its own, by which it converts both ways: for code over any of the sets.
pub trait Numbered: TryFrom<u32, Error = UnknownNumber> + Into<u32> {
    ghost code: { Self → ℕ };

    ghost writes: { (x : Self) (n : ℕ) → Self.converts x n → n ≡ code x };

    ghost reads: { (n : ℕ) (r : Result Self UnknownNumber) → Self.try_from_gives n r → Reads code n r };
}

impl From<Form> for u32 {
    ghost from_gives = { λ form n. n ≡ form_number form };

    fn from(form: Form) -> u32 {
        form as u32
    }
}

impl TryFrom<u32> for Form {
    type Error = UnknownNumber;

    ghost try_from_gives = { Reads form_number };

    fn try_from(n: u32) -> Result<Form, UnknownNumber> {
        match n {
            0 => Ok(Form::Other),
            1 => Ok(Form::Dynamic),
            2 => Ok(Form::Adt),
            3 => Ok(Form::Foreign),
            4 => Ok(Form::Param),
            5 => Ok(Form::Plain),
            6 => Ok(Form::Array),
            7 => Ok(Form::RawPtrMut),
            8 => Ok(Form::Ref),
            9 => Ok(Form::RefMut),
            10 => Ok(Form::RawPtrConst),
            _ => Err(UnknownNumber(n)),
        }
    }
}

impl Numbered for Form {
    ghost code = { form_number };

    ghost writes = { Prim.search rules };

    ghost reads = { Prim.search rules };
}

impl From<ContainerKind> for u32 {
    ghost from_gives = { λ kind n. n ≡ container_number kind };

    fn from(kind: ContainerKind) -> u32 {
        kind as u32
    }
}

impl TryFrom<u32> for ContainerKind {
    type Error = UnknownNumber;

    ghost try_from_gives = { Reads container_number };

    fn try_from(n: u32) -> Result<ContainerKind, UnknownNumber> {
        match n {
            0 => Ok(ContainerKind::Impl),
            1 => Ok(ContainerKind::Trait),
            _ => Err(UnknownNumber(n)),
        }
    }
}

impl Numbered for ContainerKind {
    ghost code = { container_number };

    ghost writes = { Prim.search rules };

    ghost reads = { Prim.search rules };
}

impl From<Sort> for u32 {
    ghost from_gives = { λ sort n. n ≡ sort_number sort };

    fn from(sort: Sort) -> u32 {
        sort as u32
    }
}

impl TryFrom<u32> for Sort {
    type Error = UnknownNumber;

    ghost try_from_gives = { Reads sort_number };

    fn try_from(n: u32) -> Result<Sort, UnknownNumber> {
        match n {
            0 => Ok(Sort::Function),
            1 => Ok(Sort::Const),
            2 => Ok(Sort::Alias),
            _ => Err(UnknownNumber(n)),
        }
    }
}

impl Numbered for Sort {
    ghost code = { sort_number };

    ghost writes = { Prim.search rules };

    ghost reads = { Prim.search rules };
}

impl From<CandidateClass> for u32 {
    ghost from_gives = { λ class n. n ≡ class_number class };

    fn from(class: CandidateClass) -> u32 {
        class as u32
    }
}

impl TryFrom<u32> for CandidateClass {
    type Error = UnknownNumber;

    ghost try_from_gives = { Reads class_number };

    fn try_from(n: u32) -> Result<CandidateClass, UnknownNumber> {
        match n {
            0 => Ok(CandidateClass::Impl),
            1 => Ok(CandidateClass::Object),
            2 => Ok(CandidateClass::Trait),
            3 => Ok(CandidateClass::Bound),
            _ => Err(UnknownNumber(n)),
        }
    }
}

impl Numbered for CandidateClass {
    ghost code = { class_number };

    ghost writes = { Prim.search rules };

    ghost reads = { Prim.search rules };
}

impl From<Wrap> for u32 {
    ghost from_gives = { λ wrap n. n ≡ wrap_number wrap };

    fn from(wrap: Wrap) -> u32 {
        wrap as u32
    }
}

impl TryFrom<u32> for Wrap {
    type Error = UnknownNumber;

    ghost try_from_gives = { Reads wrap_number };

    fn try_from(n: u32) -> Result<Wrap, UnknownNumber> {
        match n {
            0 => Ok(Wrap::Bare),
            1 => Ok(Wrap::Ref),
            2 => Ok(Wrap::RefMut),
            3 => Ok(Wrap::ConstPtr),
            _ => Err(UnknownNumber(n)),
        }
    }
}

impl Numbered for Wrap {
    ghost code = { wrap_number };

    ghost writes = { Prim.search rules };

    ghost reads = { Prim.search rules };
}

impl From<Mode> for u32 {
    ghost from_gives = { λ mode n. n ≡ mode_number mode };

    fn from(mode: Mode) -> u32 {
        mode as u32
    }
}

impl TryFrom<u32> for Mode {
    type Error = UnknownNumber;

    ghost try_from_gives = { Reads mode_number };

    fn try_from(n: u32) -> Result<Mode, UnknownNumber> {
        match n {
            0 => Ok(Mode::MethodCall),
            1 => Ok(Mode::Path),
            _ => Err(UnknownNumber(n)),
        }
    }
}

impl Numbered for Mode {
    ghost code = { mode_number };

    ghost writes = { Prim.search rules };

    ghost reads = { Prim.search rules };
}

impl From<QuestionKind> for u32 {
    ghost from_gives = { λ question n. n ≡ question_number question };

    fn from(question: QuestionKind) -> u32 {
        question as u32
    }
}

impl TryFrom<u32> for QuestionKind {
    type Error = UnknownNumber;

    ghost try_from_gives = { Reads question_number };

    fn try_from(n: u32) -> Result<QuestionKind, UnknownNumber> {
        match n {
            1 => Ok(QuestionKind::Form),
            2 => Ok(QuestionKind::Own),
            3 => Ok(QuestionKind::Stray),
            4 => Ok(QuestionKind::Item),
            5 => Ok(QuestionKind::Bound),
            6 => Ok(QuestionKind::Supers),
            7 => Ok(QuestionKind::Visible),
            8 => Ok(QuestionKind::Skips),
            9 => Ok(QuestionKind::Applies),
            10 => Ok(QuestionKind::Source),
            _ => Err(UnknownNumber(n)),
        }
    }
}

impl Numbered for QuestionKind {
    ghost code = { question_number };

    ghost writes = { Prim.search rules };

    ghost reads = { Prim.search rules };
}
