// What a script has declared so far.
use super::any::AnyHost;
use rows::Row;
use script::HostKind;
use std::alloc::Global;
use std::collections::BTreeMap;
use std::marker::Model;

// A host that was begun: the rows given for it, in their order, and the host opened last from them.
#[derive(Drop)]
pub(crate) struct Declared {
    pub(crate) kind: HostKind,
    pub(crate) rows: Vec<Row>,
    pub(crate) opened: Option<AnyHost>,
}

// The host begun last.
#[derive(Drop)]
pub(crate) struct Begun {
    pub(crate) id: u32,
    pub(crate) host: Declared,
}

// The hosts of a script. Contracts see what is known of each by its identifier, and no heap.
#[derive(Drop)]
pub struct Registry {
    // Where the rows of hosts to come are kept.
    pub(crate) heap: Global,
    // Those begun before the last, by their identifiers.
    pub(crate) hosts: BTreeMap<u32, Declared>,
    // It stands apart until another begins, so that a row is given to it without a look-up.
    pub(crate) begun: Option<Begun>,
}

impl Model for Registry {
    ghost use Rattle.std.specs.Coded.{codes};
    ghost use Rattle.std.specs.FinMap as map;
    ghost use Rattle.registry.specs.Registries.{State, state_of};

    ghost Value = { State };

    ghost coded = { Prim.hlevel (map.code, codes) };

    ghost view = { λ a. state_of a.hosts.entries a.begun };
}
