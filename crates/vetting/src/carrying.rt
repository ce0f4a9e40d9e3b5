// The items that carry a name.
ghost use Rattle.std.specs.Prelude.{◌≡◌, IfOk};
ghost use Rattle.std.specs.List.{flat_map};
ghost use Rattle.vetting.specs.Carriers.{carried, named_at};

use super::holders::Container;
use host::{Host, ItemId, MOST_ENTRIES};
use std::alloc::{AllocError, Global};

// The item of a container at a place, with its name.
fn named_at<H: Host>(host: &H, container: Container, place: u32) -> Option<(ItemId, u32)>
    ensures { result ≡ named_at (H.Host.meaning host.now) container place }
{
    let id = ItemId {
        kind: container.kind,
        container: container.number,
        place,
    };
    let item = host.item(id)?;
    Some((id, item.name))
}

// The items that carry a name, in the containers' order, then by place: aliases, constants and functions alike.
pub fn carriers<H: Host>(
    heap: Global,
    host: &H,
    containers: &[Container],
    name: u32,
) -> Result<Vec<ItemId>, AllocError>
    ensures { IfOk result (λ v. v.items ≡ flat_map (carried (H.Host.meaning host.now) name) containers.now) }
{
    containers
        .iter()
        .flat_map(|container| {
            (0..MOST_ENTRIES)
                .map_while(move |place| named_at(host, *container, place))
                .filter_map(move |(id, called)| (called == name).then_some(id))
        })
        .collect(heap)
}
