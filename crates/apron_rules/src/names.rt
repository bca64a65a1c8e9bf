// Names and their places, for look-ups by sorted order.
ghost use Rattle.std.specs.Prelude.{◌≡◌, IfOk};
ghost use Rattle.std.specs.Option.{option_map};
ghost use Rattle.apron_rules.specs.Names.{place_of, first_repeated};
ghost use Rattle.apron_rules.specs.Tables.{Checks, IsPlaces};
ghost use Rattle.apron_rules.specs.Refusals.{unless_known};
ghost use Rattle.apron_rules.specs.declared.refusals.AirportFault.TheVariants.{DuplicateName};

use crate::AirportFault;
use apron_base::Name;
use std::alloc::Global;
use std::collections::BTreeMap;
use std::marker::Model;

/// Names, each once, that are looked up by sorted order. Contracts see them as the list of the
/// names.
#[derive(Debug, Drop)]
pub(crate) struct NameTable {
    names: Vec<Name>,
    places: BTreeMap<Name, usize>,
}

impl Model for NameTable {
    ghost use Rattle.std.specs.Prelude.{ℕ, List};
    ghost use Rattle.apron_rules.specs.Tables.{IsPlaces};

    ghost Value = { List (List ℕ) };

    ghost view = { λ t. t.names.items };

    ghost invariant = { λ t. IsPlaces t.places t.names.items };
}

impl NameTable {
    /// The table of these names. `Err` gives the first name that occurs twice, or says that there
    /// is no memory.
    pub(crate) fn of(alloc: Global, names: Vec<Name>) -> Result<NameTable, AirportFault>
        ensures names { IfOk result (λ table. table ≡ names.items) }
        ensures fault { Checks result (option_map DuplicateName (first_repeated names.items)) }
    {
        let places = places_of(alloc, names.as_slice())?;
        Ok(NameTable { names, places })
    }

    /// The place of a name, from 0: `None` exactly if the table doesn't have it.
    pub(crate) fn place(&self, name: &Name) -> Option<usize>
        ensures place { result ≡ place_of name.now self.now }
    {
        self.places.get(name).copied()
    }

    /// The name, if the table doesn't have it.
    pub(crate) fn unless_known(&self, name: &Name) -> Option<Name>
        ensures is { result ≡ unless_known self.now name.now }
    {
        match self.place(name) {
            Some(_) => None,
            None => Some(*name),
        }
    }
}

fn places_of(alloc: Global, names: &[Name]) -> Result<BTreeMap<Name, usize>, AirportFault>
    ensures places { IfOk result (λ places. IsPlaces places names.now) }
    ensures fault { Checks result (option_map DuplicateName (first_repeated names.now)) }
{
    let mut places = BTreeMap::new(alloc);
    for place in 0..names.len() {
        let name = names[place];
        if places.contains_key(&name) {
            return Err(AirportFault::DuplicateName(name));
        }
        if places.insert(name, place).is_err() {
            return Err(AirportFault::Memory);
        }
    }
    Ok(places)
}
