// The questions that a line can ask.
ghost use Rattle.std.specs.Prelude.{◌≡◌};
ghost use Rattle.script.specs.Grammar.{texts, item_of, applies_line, source_line, question_of, question_line};

use super::faults::Fault;
use super::words::{listed, numbers, read_as};
use host::{ItemId, Question, QuestionKind, TraitItem, Trial};

// The place of a question's first argument on its line.
const FIRST: usize = 4;

// The item that questions 4 and 7 ask about.
#[tactic(auto, using(crate::proofs::Sets::kind_is), unfolding(crate::specs::Grammar::item_of))]
fn item_of(words: &[&str]) -> Result<ItemId, Fault>
    ensures { result ≡ item_of (texts words.now) }
{
    let [kind, container, place] = numbers::<3>(words, FIRST)?;
    let kind = listed(kind, 4)?;
    Ok(ItemId {
        kind,
        container,
        place,
    })
}

// The candidate that question 9 tries.
#[tactic(auto, using(crate::proofs::Sets::class_is, crate::proofs::Sets::wrap_is, crate::proofs::Sets::mode_is), unfolding(crate::specs::Grammar::applies_line))]
fn applies(words: &[&str]) -> Result<Trial, Fault>
    ensures { result ≡ applies_line (texts words.now) }
{
    let [class, container, place, origin, ty, wrap, mode] = numbers::<7>(words, FIRST)?;
    let class = listed(class, 4)?;
    let wrap = listed(wrap, 9)?;
    let mode = listed(mode, 10)?;
    Ok(Trial {
        class,
        container,
        place,
        origin,
        ty,
        wrap,
        mode,
    })
}

// The trait's item that question 10 asks about.
#[tactic(auto, using(crate::proofs::Sets::wrap_is, crate::proofs::Sets::mode_is), unfolding(crate::specs::Grammar::source_line))]
fn source(words: &[&str]) -> Result<TraitItem, Fault>
    ensures { result ≡ source_line (texts words.now) }
{
    let [tr, place, ty, wrap, mode] = numbers::<5>(words, FIRST)?;
    let wrap = listed(wrap, 7)?;
    let mode = listed(mode, 8)?;
    Ok(TraitItem {
        tr,
        place,
        ty,
        wrap,
        mode,
    })
}

// A question of that kind, with its arguments.
#[tactic(auto, unfolding(crate::specs::Grammar::question_of))]
fn question_of(kind: QuestionKind, words: &[&str]) -> Result<Question, Fault>
    ensures { result ≡ question_of kind (texts words.now) }
{
    let question = match kind {
        QuestionKind::Form => {
            let [ty] = numbers::<1>(words, FIRST)?;
            Question::Form { ty }
        }
        QuestionKind::Own => {
            let [ty, place] = numbers::<2>(words, FIRST)?;
            Question::Own { ty, place }
        }
        QuestionKind::Stray => {
            let [ty, place] = numbers::<2>(words, FIRST)?;
            Question::Stray { ty, place }
        }
        QuestionKind::Item => Question::Item(item_of(words)?),
        QuestionKind::Bound => {
            let [ty, place] = numbers::<2>(words, FIRST)?;
            Question::Bound { ty, place }
        }
        QuestionKind::Supers => {
            let [tr, place] = numbers::<2>(words, FIRST)?;
            Question::Supers { tr, place }
        }
        QuestionKind::Visible => Question::Visible(item_of(words)?),
        QuestionKind::Skips => {
            let [tr] = numbers::<1>(words, FIRST)?;
            Question::Skips { tr }
        }
        QuestionKind::Applies => Question::Applies(applies(words)?),
        QuestionKind::Source => Question::Source(source(words)?),
    };
    Ok(question)
}

// The question of that number, with its arguments.
#[tactic(auto, using(crate::proofs::Sets::question_is), unfolding(crate::specs::Grammar::question_line))]
pub(crate) fn numbered_question(number: u32, words: &[&str]) -> Result<Question, Fault>
    ensures { result ≡ question_line number (texts words.now) }
{
    question_of(read_as(number, Fault::UnknownQuestion)?, words)
}
