ghost use Rattle.std.specs.Prelude.{◌≡◌};

use crate::opening::{as_default, opened_default, opened_targeted, opened_written};
use crate::part::Part;
use crate::parts::{entry_part, field_name, field_part, node_of_field, value_part};
use avro_display::{DisplayTable, Displayed, Member, Opened, Plain, entry_key, node_fields};
use avro_resolve::PlanRef;

/// A writer's data as a plan's reader has them, displayed as data of a table's schema.
#[derive(Drop)]
pub struct Resolved<'a> {
    pub(crate) plan: &'a PlanRef<'a>,
    pub(crate) table: &'a DisplayTable<'a>,
    plain: Plain<'a>,
    ghost same: { plain.table.now ≡ table.now },
}

impl<'a> Resolved<'a> {
    ghost use Rattle.std.specs.Prelude.{◌≡◌};

    /// The data by a plan, and the table by which they are displayed: that of the plan's reader, though no clause asks for it.
    pub fn new(plan: &'a PlanRef<'a>, table: &'a DisplayTable<'a>) -> Resolved<'a>
        ensures plan { result.plan.now ≡ plan.now }
        ensures table { result.table.now ≡ table.now }
    {
        Resolved {
            plan,
            table,
            plain: Plain::new(table),
        }
    }
}

impl<'a> Displayed for Resolved<'a> {
    ghost use Rattle.avro_show.specs.Showing.{resolved_entry, resolved_item, resolved_levels, resolved_member, resolved_shows};

    type Part = Part<'a>;

    ghost shows = { λ s part d. resolved_shows s.plan.now s.table.now part d };

    ghost item_shows = { λ s part i d. resolved_item s.plan.now s.table.now part i d };

    ghost entry_shows = { λ s part i k d. resolved_entry s.plan.now s.table.now part i k d };

    ghost member_shows = { λ s part m d. resolved_member s.plan.now s.table.now part m d };

    ghost levels = { λ s part. resolved_levels s.plan.now part };

    fn open(&self, part: Self::Part) -> Opened<'_, Self::Part> {
        match part {
            Part::Written(pair, id, datum) => {
                opened_written(self.plan, self.table, pair, id, datum)
            }
            Part::Targeted(pair, id, datum) => opened_targeted(
                self.plan, self.table, pair, id, datum,
            ),
            Part::Default(plain) => opened_default(self.plain.open(plain)),
            Part::Null => Opened::Null,
            Part::Items(_, _, _) => Opened::Null,
            Part::Entries(_, _, _) => Opened::Null,
            Part::Fields(_, _, _) => Opened::Null,
        }
    }

    fn item(&self, array: Self::Part, index: usize) -> Option<Self::Part> {
        match array {
            Part::Items(pair, id, items) => Some(value_part(pair, id, items, index)),
            Part::Default(plain) => as_default(self.plain.item(plain, index)),
            _ => None,
        }
    }

    fn key(&self, object: Self::Part, index: usize) -> &str {
        match object {
            Part::Entries(_, _, entries) => entry_key(entries, index),
            Part::Fields(_, id, _) => field_name(node_fields(self.table.node(id)), index),
            Part::Default(plain) => self.plain.key(plain, index),
            _ => "",
        }
    }

    fn entry(&self, object: Self::Part, index: usize) -> Option<Self::Part> {
        match object {
            Part::Entries(pair, id, entries) => Some(entry_part(pair, id, entries, index)),
            Part::Fields(pair, id, values) => {
                let fields = node_fields(self.table.node(id));
                Some(field_part(self.plan, pair, node_of_field(fields, index), values, index))
            }
            Part::Default(plain) => as_default(self.plain.entry(plain, index)),
            _ => None,
        }
    }

    fn member(&self, object: Self::Part, member: &Member) -> Option<Self::Part> {
        match object {
            Part::Fields(pair, _, values) => {
                Some(field_part(self.plan, pair, Some(member.node), values, member.field))
            }
            Part::Default(plain) => as_default(self.plain.member(plain, member)),
            _ => None,
        }
    }
}
