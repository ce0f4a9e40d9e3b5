// The host that knows nothing.
ghost use Rattle.std.specs.Prelude.{◌≡◌};
ghost use Rattle.host.specs.Empty.{empty_host_lawful};
ghost use Rattle.host.specs.Law.{empty_host};

use super::Host;
use super::forms::{Form, Item, ItemId, TraitItem, Trial, TypeForm};

// Every type is of form `Other`, no container has an item, and a trait's supers are the trait alone.
#[derive(Clone, Copy)]
pub struct EmptyHost;

impl Host for EmptyHost {
    ghost meaning = { λ _. empty_host };

    ghost lawful = { λ _. empty_host_lawful };

    fn form(&self, _ty: u32) -> TypeForm {
        TypeForm {
            form: Form::Other,
            definition: 0,
            boxed_slice: false,
        }
    }

    fn own(&self, _ty: u32, _place: u32) -> Option<u32> {
        None
    }

    fn stray(&self, _ty: u32, _place: u32) -> Option<u32> {
        None
    }

    fn item(&self, _at: ItemId) -> Option<Item> {
        None
    }

    fn bound(&self, _ty: u32, _place: u32) -> Option<u32> {
        None
    }

    fn supers(&self, tr: u32, place: u32) -> Option<u32> {
        if place == 0 { Some(tr) } else { None }
    }

    fn visible(&self, _item: ItemId) -> bool {
        false
    }

    fn skips(&self, _tr: u32) -> (bool, bool) {
        (false, false)
    }

    fn applies(&self, _trial: Trial) -> bool {
        false
    }

    fn source(&self, _item: TraitItem) -> Option<u32> {
        None
    }
}
