// Vetting a table as a loader does before it is used.
ghost use Rattle.std.specs.Prelude.{IfOk, MatchBool};
ghost use Rattle.host.specs.Law.{SupertraitLaw};
ghost use Rattle.rows.specs.Tables.{tabled};

use super::printing::Numbers;
use host::{ContainerKind, Form, Host, ItemId, TypeForm};
use rows::{Breach, Row, breach_of};
use std::{fmt, io};
use tabled::TabledHost;
use vetting::{NumberList, Subject, carriers, containers, entries, subjects};

// What the numbers of a table stand for, each by its place.
#[derive(Clone, Copy)]
pub struct Labels<'a> {
    pub types: &'a [&'a str],
    pub traits: &'a [&'a str],
    pub names: &'a [&'a str],
}

// A number, with what it stands for if that is known.
#[derive(Drop)]
struct Labelled<'a> {
    number: u32,
    labels: &'a [&'a str],
}

impl fmt::Display for Labelled<'_> {
    fn fmt<W: fmt::Write>(&self, f: &mut fmt::Formatter<W>) -> fmt::Result {
        let number = self.number;
        match self.labels.get(number as usize) {
            Some(label) => write!(f, "{number} {label}"),
            None => write!(f, "{number}"),
        }
    }
}

// What a type is, in words.
#[derive(Drop)]
struct Kind(TypeForm);

impl fmt::Display for Kind {
    fn fmt<W: fmt::Write>(&self, f: &mut fmt::Formatter<W>) -> fmt::Result {
        let definition = self.0.definition;
        match self.0.form {
            Form::Other => write!(f, "of no known form"),
            Form::Dynamic => write!(f, "object of trait {definition}"),
            Form::Adt => write!(f, "adt {definition}"),
            Form::Foreign => write!(f, "foreign type {definition}"),
            Form::Param => write!(f, "type parameter"),
            Form::Plain => write!(f, "plain type"),
            Form::Array => write!(f, "array"),
            Form::RawPtrMut => write!(f, "mutable raw pointer"),
            Form::Ref => write!(f, "shared reference"),
            Form::RefMut => write!(f, "mutable reference"),
            Form::RawPtrConst => write!(f, "const raw pointer"),
        }
    }
}

// An item, by its container and place.
#[derive(Drop)]
struct Place(ItemId);

impl fmt::Display for Place {
    fn fmt<W: fmt::Write>(&self, f: &mut fmt::Formatter<W>) -> fmt::Result {
        let kind = match self.0.kind {
            ContainerKind::Impl => "impl",
            ContainerKind::Trait => "trait",
        };
        let container = self.0.container;
        let place = self.0.place;
        write!(f, "{kind} {container} place {place}")
    }
}

// Items, separated by commas, each with a blank in front; not by `Joined`, whose words show themselves.
#[derive(Drop)]
struct Places<'a>(&'a [ItemId]);

impl fmt::Display for Places<'_> {
    fn fmt<W: fmt::Write>(&self, f: &mut fmt::Formatter<W>) -> fmt::Result {
        for (before, item) in self.0.iter().enumerate() {
            if before > 0 {
                write!(f, ",")?;
            }
            let place = Place(*item);
            write!(f, " {place}")?;
        }
        Ok(())
    }
}

// Prints where the supertrait law breaks, and answers at how many traits.
fn print_breaches(rt: &HostRuntime, rows: &[Row], traits: &[u32]) -> io::Result<usize> {
    let mut broken = 0usize;
    for &tr in traits {
        if let Some(breach) = breach_of(rows, tr) {
            println!(rt; "  trait {tr}: {breach}")?;
            broken = broken.saturating_add(1);
        }
    }
    Ok(broken)
}

// An opened table, and the labels under which it is listed.
#[derive(Drop)]
struct Inventory<'a> {
    rt: &'a HostRuntime,
    host: &'a TabledHost,
    rows: &'a [Row],
    labels: Labels<'a>,
}

impl Inventory<'_> {
    fn print_types(&self, types: &[u32]) -> anyhow::Result<()> {
        let heap = self.rt.alloc();
        for &ty in types {
            let label = Labelled {
                number: ty,
                labels: self.labels.types,
            };
            let form = Kind(self.host.form(ty));
            let own = entries(heap, self.host, NumberList::Own { ty })?;
            let stray = entries(heap, self.host, NumberList::Stray { ty })?;
            let bounds = entries(heap, self.host, NumberList::Bounds { ty })?;
            let own = Numbers(&own);
            let stray = Numbers(&stray);
            let bounds = Numbers(&bounds);
            println!(self.rt;
                "  type {label}: {form}, own impls{own}, stray impls{stray}, bounds{bounds}"
            )?;
        }
        Ok(())
    }

    fn print_traits(&self, traits: &[u32]) -> anyhow::Result<()> {
        for &tr in traits {
            let label = Labelled {
                number: tr,
                labels: self.labels.traits,
            };
            let supers = entries(self.rt.alloc(), self.host, NumberList::Supers { tr })?;
            let supers = Numbers(&supers);
            println!(self.rt; "  trait {label}: supers{supers}")?;
        }
        Ok(())
    }

    fn print_names(&self, names: &[u32]) -> anyhow::Result<()> {
        let heap = self.rt.alloc();
        let all = containers(heap, self.rows)?;
        for &name in names {
            let label = Labelled {
                number: name,
                labels: self.labels.names,
            };
            let items = carriers(heap, self.host, &all, name)?;
            let places = Places(&items);
            println!(self.rt; "  name {label}:{places}")?;
        }
        Ok(())
    }
}

// Opens a table and prints its inventory, or says where the supertrait law breaks; answers whether it can be used.
pub fn vet(rt: &HostRuntime, rows: &[Row], labels: Labels<'_>) -> anyhow::Result<bool>
    ensures { IfOk result (λ usable. MatchBool usable (SupertraitLaw (tabled rows.now)) (SupertraitLaw (tabled rows.now) → ⊥)) }
{
    let heap = rt.alloc();
    let types = subjects(heap, rows, Subject::Type)?;
    let traits = subjects(heap, rows, Subject::Trait)?;
    let names = subjects(heap, rows, Subject::Name)?;
    let count = rows.len();
    match TabledHost::open(Vec::from_slice(heap, rows)?) {
        Err(refusal) => {
            let number = u32::from(refusal);
            println!(rt; "refused {number}: the supertrait law is broken")?;
            let broken = print_breaches(rt, rows, &traits)?;
            println!(rt;
                "checked {count} rows: {broken} traits break the law, and the table is not used"
            )?;
            Ok(false)
        }
        Ok(host) => {
            println!(rt; "opened")?;
            let inventory = Inventory {
                rt,
                host: &host,
                rows,
                labels,
            };
            inventory.print_types(&types)?;
            inventory.print_traits(&traits)?;
            inventory.print_names(&names)?;
            let (types, traits, names) = (types.len(), traits.len(), names.len());
            println!(rt;
                "checked {count} rows: {types} types, {traits} traits, {names} names; the supertrait law holds at every trait"
            )?;
            Ok(true)
        }
    }
}
