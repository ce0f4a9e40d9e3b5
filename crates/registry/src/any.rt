// A host of any kind that a script can open.
ghost use Rattle.std.specs.Prelude.{◌≡◌};
ghost use Rattle.registry.specs.AnyHosts.{any_meaning, any_lawful};

use host::{EmptyHost, Host, Item, ItemId, TraitItem, Trial, TypeForm};
use tabled::TabledHost;

// An enum of the kinds, since a `dyn Host` may not be handed out.
#[derive(Drop)]
pub enum AnyHost {
    Tabled(TabledHost),
    Empty(EmptyHost),
}

// What the host of whatever kind gives.
macro_rules! of_any {
    ($any:expr, $host:ident => $given:expr) => {
        match $any {
            AnyHost::Tabled($host) => $given,
            AnyHost::Empty($host) => $given,
        }
    };
}

impl Host for AnyHost {
    ghost meaning = { any_meaning };

    ghost lawful = { any_lawful };

    fn form(&self, ty: u32) -> TypeForm {
        of_any!(self, h => h.form(ty))
    }

    fn own(&self, ty: u32, place: u32) -> Option<u32> {
        of_any!(self, h => h.own(ty, place))
    }

    fn stray(&self, ty: u32, place: u32) -> Option<u32> {
        of_any!(self, h => h.stray(ty, place))
    }

    fn item(&self, at: ItemId) -> Option<Item> {
        of_any!(self, h => h.item(at))
    }

    fn bound(&self, ty: u32, place: u32) -> Option<u32> {
        of_any!(self, h => h.bound(ty, place))
    }

    fn supers(&self, tr: u32, place: u32) -> Option<u32> {
        of_any!(self, h => h.supers(tr, place))
    }

    fn visible(&self, item: ItemId) -> bool {
        of_any!(self, h => h.visible(item))
    }

    fn skips(&self, tr: u32) -> (bool, bool) {
        of_any!(self, h => h.skips(tr))
    }

    fn applies(&self, trial: Trial) -> bool {
        of_any!(self, h => h.applies(trial))
    }

    fn source(&self, item: TraitItem) -> Option<u32> {
        of_any!(self, h => h.source(item))
    }
}
