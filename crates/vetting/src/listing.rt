// The lists of numbers behind the list questions.
ghost use Rattle.std.specs.Prelude.{◌≡◌, IfOk};
ghost use Rattle.host.specs.Meaning.{listed};
ghost use Rattle.vetting.specs.Lists.{asked_of};

use host::{Host, MOST_ENTRIES};
use std::alloc::{AllocError, Global};

// A list question whose answers are numbers, but for its place. It is a value and no closure: a function that is open to all
// may not ask that a closure can be called.
#[derive(Clone, Copy, PartialEq, Eq)]
pub enum NumberList {
    Own { ty: u32 },
    Stray { ty: u32 },
    Bounds { ty: u32 },
    Supers { tr: u32 },
}

// What a host answers at a place of a list.
fn asked<H: Host>(host: &H, list: NumberList, place: u32) -> Option<u32>
    ensures { result ≡ asked_of (H.Host.meaning host.now) list place }
{
    match list {
        NumberList::Own { ty } => host.own(ty, place),
        NumberList::Stray { ty } => host.stray(ty, place),
        NumberList::Bounds { ty } => host.bound(ty, place),
        NumberList::Supers { tr } => host.supers(tr, place),
    }
}

// The whole list, asked place by place until one is absent.
pub fn entries<H: Host>(heap: Global, host: &H, list: NumberList) -> Result<Vec<u32>, AllocError>
    ensures { IfOk result (λ v. v.items ≡ listed (asked_of (H.Host.meaning host.now) list)) }
{
    (0..MOST_ENTRIES)
        .map_while(|place| asked(host, list, place))
        .collect(heap)
}
