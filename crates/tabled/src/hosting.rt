// Opening a table, and its answers.
ghost use Rattle.std.specs.Prelude.{◌≡◌};
ghost use Rattle.rows.proofs.Lawfulness.{tabled_lawful};
ghost use Rattle.tabled.specs.Opening.{Opened};
ghost use Rattle.rows.specs.Tables.{tabled};

use super::table::TabledHost;
use host::{Host, Item, ItemId, Question, Refusal, TraitItem, Trial, TypeForm};
use rows::{
    Listing, Row, entry, form_in, is_lawful, item_in, mark_in, marks_in, number_in, row_for,
};

impl TabledHost {
    // Every opening makes a host anew from the rows that it is given.
    pub fn open(rows: Vec<Row>) -> Result<TabledHost, Refusal>
        ensures { Opened rows.items result }
    {
        if is_lawful(&rows) {
            Ok(TabledHost { rows })
        } else {
            Err(Refusal::UnlawfulSupertraits)
        }
    }
}

impl Host for TabledHost {
    ghost meaning = { λ h. tabled h.rows.items };

    ghost lawful = { λ h. tabled_lawful h.rows.items h.unbroken };

    fn form(&self, ty: u32) -> TypeForm {
        form_in(row_for(&self.rows, Question::Form { ty }))
    }

    fn own(&self, ty: u32, place: u32) -> Option<u32> {
        number_in(entry(&self.rows, Listing::Own { ty }, place))
    }

    fn stray(&self, ty: u32, place: u32) -> Option<u32> {
        number_in(entry(&self.rows, Listing::Stray { ty }, place))
    }

    fn item(&self, at: ItemId) -> Option<Item> {
        let listing = Listing::Items {
            kind: at.kind,
            container: at.container,
        };
        item_in(entry(&self.rows, listing, at.place))
    }

    fn bound(&self, ty: u32, place: u32) -> Option<u32> {
        number_in(entry(&self.rows, Listing::Bounds { ty }, place))
    }

    fn supers(&self, tr: u32, place: u32) -> Option<u32> {
        number_in(entry(&self.rows, Listing::Supers { tr }, place))
    }

    fn visible(&self, item: ItemId) -> bool {
        mark_in(row_for(&self.rows, Question::Visible(item)))
    }

    fn skips(&self, tr: u32) -> (bool, bool) {
        marks_in(row_for(&self.rows, Question::Skips { tr }))
    }

    fn applies(&self, trial: Trial) -> bool {
        mark_in(row_for(&self.rows, Question::Applies(trial)))
    }

    fn source(&self, item: TraitItem) -> Option<u32> {
        number_in(row_for(&self.rows, Question::Source(item)))
    }
}
