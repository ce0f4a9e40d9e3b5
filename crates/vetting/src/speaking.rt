// The types, traits and names that rows speak of.
ghost use Rattle.std.specs.Prelude.{◌≡◌, ◌++◌, IfOk, nat_eq};
ghost use Rattle.std.specs.List.{flat_map};
ghost use Rattle.std.specs.Option.{option_to_list};
ghost use Rattle.vetting.specs.Firsts.{firsts, Collected};
ghost use Rattle.vetting.specs.Subjects.{mentioned, asking};

use super::firsts::firsts;
use host::{ContainerKind, QuestionKind};
use rows::Row;
use std::alloc::{AllocError, Global};

// A sort of number that rows speak of.
#[derive(Clone, Copy, PartialEq, Eq)]
pub enum Subject {
    Type,
    Trait,
    Name,
}

// The numbers of that sort in a row that answers a question of that kind: at most two. A pair of them is chained as it stands;
// an array of options would have to be flattened, and be no plainer.
fn said(row: &Row, subject: Subject, kind: QuestionKind) -> (Option<u32>, Option<u32>)
    ensures { option_to_list result.0 ++ option_to_list result.1 ≡ mentioned subject (asking row.now kind) }
{
    let key = row.key;
    let of_trait = key.a1 == u32::from(ContainerKind::Trait);
    match (subject, kind) {
        (
            Subject::Type,
            QuestionKind::Form | QuestionKind::Own | QuestionKind::Stray | QuestionKind::Bound,
        ) => (Some(key.a1), None),
        (Subject::Trait, QuestionKind::Item | QuestionKind::Visible) if of_trait => {
            (Some(key.a2), None)
        }
        (Subject::Trait, QuestionKind::Bound) => (Some(row.r1), None),
        (Subject::Trait, QuestionKind::Supers) => (Some(key.a1), Some(row.r1)),
        (Subject::Trait, QuestionKind::Skips) => (Some(key.a1), None),
        (Subject::Name, QuestionKind::Item) => (Some(row.r1), None),
        _ => (None, None),
    }
}

// The numbers of that sort in one row.
fn mentions(row: &Row, subject: Subject) -> (Option<u32>, Option<u32>)
    ensures { option_to_list result.0 ++ option_to_list result.1 ≡ mentioned subject row.now }
{
    match row.question() {
        Some(kind) => said(row, subject, kind),
        None => (None, None),
    }
}

// The numbers of that sort that the rows speak of, each once, in the order in which they first come.
pub fn subjects(heap: Global, rows: &[Row], subject: Subject) -> Result<Vec<u32>, AllocError>
    ensures order { IfOk result (λ v. v.items ≡ firsts nat_eq (flat_map (mentioned subject) rows.now)) }
    ensures spoken { IfOk result (λ v. Collected (mentioned subject) rows.now v.items) }
{
    firsts(
        heap,
        rows.iter().flat_map(|row| {
            let (first, second) = mentions(row, subject);
            first.into_iter().chain(second)
        }),
    )
}
