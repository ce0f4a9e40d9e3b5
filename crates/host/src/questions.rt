// The ten questions as values, so that a script can ask any of them.
ghost use Rattle.std.specs.Prelude.{◌≡◌};
ghost use Rattle.host.specs.Questions.{answer};

use super::Host;
use super::forms::{Item, ItemId, TraitItem, Trial, TypeForm};

// A question with its arguments. A list is asked by place, from 0.
#[derive(Clone, Copy, PartialEq, Eq)]
pub enum Question {
    Form { ty: u32 },
    Own { ty: u32, place: u32 },
    Stray { ty: u32, place: u32 },
    Item(ItemId),
    Bound { ty: u32, place: u32 },
    Supers { tr: u32, place: u32 },
    Visible(ItemId),
    Skips { tr: u32 },
    Applies(Trial),
    Source(TraitItem),
}

#[derive(Clone, Copy)]
pub enum Answer {
    Form(TypeForm),
    // An impl or a trait, or absent.
    Number(Option<u32>),
    Item(Option<Item>),
    Mark(bool),
    // The array mark and the boxed-slice mark.
    Marks(bool, bool),
}

pub fn ask<H: Host>(host: &H, question: Question) -> Answer
    ensures { result ≡ answer (H.Host.meaning host.now) question }
{
    match question {
        Question::Form { ty } => Answer::Form(host.form(ty)),
        Question::Own { ty, place } => Answer::Number(host.own(ty, place)),
        Question::Stray { ty, place } => Answer::Number(host.stray(ty, place)),
        Question::Item(at) => Answer::Item(host.item(at)),
        Question::Bound { ty, place } => Answer::Number(host.bound(ty, place)),
        Question::Supers { tr, place } => Answer::Number(host.supers(tr, place)),
        Question::Visible(item) => Answer::Mark(host.visible(item)),
        Question::Skips { tr } => {
            let (array, boxed_slice) = host.skips(tr);
            Answer::Marks(array, boxed_slice)
        }
        Question::Applies(trial) => Answer::Mark(host.applies(trial)),
        Question::Source(item) => Answer::Number(host.source(item)),
    }
}
