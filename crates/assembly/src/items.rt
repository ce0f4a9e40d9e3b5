// The item that a container offers.
ghost use Rattle.std.specs.Prelude.{◌≡◌};
ghost use Rattle.std.specs.Option.{option_map};
ghost use Rattle.method_resolution.specs.Assembly.{has_name, serves, offered_place};
ghost use Rattle.assembly.specs.Contexts.{question};
ghost use Rattle.assembly.specs.Growth.{item_at};

use super::context::ProbeContext;
use host::{ContainerKind, Host, Item, ItemId, MOST_ENTRIES, Mode, Sort};

// Whether the item has the name; an alias never counts.
fn is_named(item: Item, name: u32) -> bool
    ensures { result ≡ has_name name item }
{
    item.sort != Sort::Alias && item.name == name
}

// Whether the item can be meant in this mode: a method call wants a function with self.
fn has_applicable_self(item: Item, mode: Mode) -> bool
    ensures { result ≡ serves mode item }
{
    mode == Mode::Path || item.sort == Sort::Function && item.has_self
}

impl<H: Host> ProbeContext<'_, H> {
    // The container's first item of the name, if it can be meant. An item that can't hides those behind it.
    pub(crate) fn impl_or_trait_item(&self, kind: ContainerKind, container: u32) -> Option<ItemId>
        ensures { result ≡ option_map (item_at kind container) (offered_place (question H.meaning self.now) kind container) }
    {
        for place in 0..MOST_ENTRIES {
            let id = ItemId {
                kind,
                container,
                place,
            };
            let item = self.host.item(id)?;
            if is_named(item, self.name) {
                return has_applicable_self(item, self.mode).then_some(id);
            }
        }
        None
    }
}
