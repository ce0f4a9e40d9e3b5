// A lent host, so that several users can share one.
ghost use Rattle.std.specs.Prelude.{◌≡◌};

use super::Host;
use super::forms::{Item, ItemId, TraitItem, Trial, TypeForm};

// A host behind a shared reference, with the meaning of the host behind it. A struct, and no impl for every `&H`, so that the
// code shows where a host is shared.
#[derive(Clone, Copy)]
pub struct Lent<'a, H>(pub &'a H);

impl<H: Host> Host for Lent<'_, H> {
    ghost meaning = { λ h. H.Host.meaning h.0.now };

    ghost lawful = { λ h. H.Host.lawful h.0.now };

    fn form(&self, ty: u32) -> TypeForm {
        self.0.form(ty)
    }

    fn own(&self, ty: u32, place: u32) -> Option<u32> {
        self.0.own(ty, place)
    }

    fn stray(&self, ty: u32, place: u32) -> Option<u32> {
        self.0.stray(ty, place)
    }

    fn item(&self, at: ItemId) -> Option<Item> {
        self.0.item(at)
    }

    fn bound(&self, ty: u32, place: u32) -> Option<u32> {
        self.0.bound(ty, place)
    }

    fn supers(&self, tr: u32, place: u32) -> Option<u32> {
        self.0.supers(tr, place)
    }

    fn visible(&self, item: ItemId) -> bool {
        self.0.visible(item)
    }

    fn skips(&self, tr: u32) -> (bool, bool) {
        self.0.skips(tr)
    }

    fn applies(&self, trial: Trial) -> bool {
        self.0.applies(trial)
    }

    fn source(&self, item: TraitItem) -> Option<u32> {
        self.0.source(item)
    }
}
