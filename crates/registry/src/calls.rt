// What a script does with its hosts.
ghost use Rattle.std.specs.Prelude.{◌≡◌, None, Some, is_ok, if◌then◌else◌};
ghost use Rattle.std.specs.FinMap as map;
ghost use Rattle.std.specs.Option.{option_map};
ghost use Rattle.registry.specs.Registries.{known, no_hosts, kind_of, begun_last, opened_last, Told, declare_wrong, with_host, table_wrong, with_row_of, with_row, Fresh, Reopens, Opens, asked_of};

use super::any::AnyHost;
use super::entries::{Begun, Declared, Registry};
use super::troubles::Trouble;
use host::{Answer, EmptyHost, Question, Refusal, ask};
use rows::Row;
use script::HostKind;
use std::alloc::Global;
use std::collections::BTreeMap;
use tabled::TabledHost;

// A host of that kind over these rows.
fn fresh_host(kind: HostKind, rows: Vec<Row>) -> Result<AnyHost, Refusal>
    ensures { Fresh kind rows.items result }
{
    match kind {
        HostKind::Tabled => TabledHost::open(rows).map(AnyHost::Tabled),
        HostKind::Empty => Ok(AnyHost::Empty(EmptyHost)),
    }
}

// Puts a host of that kind over these rows in the place of the one opened before; a refusal leaves it.
fn reopen(
    heap: Global,
    kind: HostKind,
    rows: &[Row],
    opened: &mut Option<AnyHost>,
) -> Result<Result<(), Refusal>, Trouble>
    ensures { Reopens kind rows.now opened.old result opened.new }
{
    let rows = Vec::from_slice(heap, rows)?;
    match fresh_host(kind, rows) {
        Ok(host) => {
            *opened = Some(host);
            Ok(Ok(()))
        }
        Err(refusal) => Ok(Err(refusal)),
    }
}

impl Registry {
    // No host declared yet; the heap is kept for the rows of hosts to come.
    pub fn new(heap: Global) -> Registry
        ensures { result ≡ no_hosts }
    {
        Registry {
            heap,
            hosts: BTreeMap::new(heap),
            begun: None,
        }
    }

    // The host with that identifier.
    fn find(&self, id: u32) -> Option<&Declared>
        ensures { option_map (λ d. known d.now) result ≡ map.get self.now.hosts id }
    {
        match &self.begun {
            Some(begun) if begun.id == id => Some(&begun.host),
            _ => self.hosts.get(&id),
        }
    }

    // Begins a host; its tables follow.
    pub fn declare(&mut self, id: u32, kind: HostKind) -> Result<(), Trouble>
        ensures told { Told (declare_wrong self.old id) result }
        ensures after { self.new ≡ (if is_ok result then with_host self.old id kind else self.old) }
    {
        if self.find(id).is_some() {
            return Err(Trouble::DeclaredTwice);
        }
        let host = Declared {
            kind,
            rows: Vec::new(self.heap),
            opened: None,
        };
        let Some(before) = self.begun.replace(Begun { id, host }) else {
            return Ok(());
        };
        match self.hosts.insert(before.id, before.host) {
            Ok(_) => Ok(()),
            // It stays the one begun last.
            Err(failed) => {
                let (id, host) = failed.value;
                self.begun = Some(Begun { id, host });
                Err(Trouble::Memory)
            }
        }
    }

    // Puts a row after those of that host, which needs no look-up where it was begun last.
    fn push(&mut self, id: u32, row: Row) -> Result<(), Trouble>
        ensures told { Told None result }
        ensures after { self.new ≡ (if is_ok result then with_row_of self.old (Some id) row else self.old) }
    {
        match &mut self.begun {
            Some(begun) if begun.id == id => begun.host.rows.push(row)?,
            _ => {
                if let Some(host) = self.hosts.get_mut(&id) {
                    host.rows.push(row)?;
                }
            }
        }
        Ok(())
    }

    // One row more for the host begun last.
    pub fn add_row(&mut self, row: Row) -> Result<(), Trouble>
        ensures told { Told (table_wrong (begun_last self.old)) result }
        ensures after { self.new ≡ (if is_ok result then with_row self.old row else self.old) }
    {
        let begun = self.begun.as_ref().ok_or(Trouble::NoHostBegun)?;
        let id = begun.id;
        match begun.host.kind {
            HostKind::Tabled => self.push(id, row),
            HostKind::Empty => Err(Trouble::NoSuchTable),
        }
    }

    // Opens a host anew from its tables as they stand; a refusal leaves the host opened before. A result in a result: a
    // refusal is what the line is answered, a trouble that it has no answer.
    pub fn open(&mut self, id: u32) -> Result<Result<(), Refusal>, Trouble>
        ensures { Opens self.old id result self.new }
    {
        match &mut self.begun {
            Some(begun) if begun.id == id => {
                reopen(
                    self.heap,
                    begun.host.kind,
                    &begun.host.rows,
                    &mut begun.host.opened,
                )
            }
            _ => {
                let host = self.hosts.get_mut(&id).ok_or(Trouble::NotDeclared)?;
                reopen(self.heap, host.kind, &host.rows, &mut host.opened)
            }
        }
    }

    // Asks the host that was opened last.
    pub fn ask(&self, id: u32, question: Question) -> Result<Answer, Trouble>
        ensures { result ≡ asked_of (kind_of self.now id) (opened_last self.now id) question }
    {
        let host = self.find(id).ok_or(Trouble::NotDeclared)?;
        let open = host.opened.as_ref().ok_or(Trouble::NotOpen)?;
        Ok(ask(open, question))
    }
}
