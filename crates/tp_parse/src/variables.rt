//! The variables of a term, by their numbers.

ghost use Rattle.std.specs.Prelude.{◌≡◌, ◌+◌, ◌<◌, ◌^◌, ℕ, [], ◌∷◌, ◌++◌, map, chars, codes, None};
ghost use Rattle.std.specs.Prelude.{IfOk, OnOk};
ghost use Rattle.tp_parse.specs.Numbers.{no_numbers, number_in, number_of};
ghost use Rattle.tp_parse.specs.Tells.{named_of};
ghost use Rattle.tp_parse.specs.Variables.{numbers_of};
ghost use Rattle.tp_terms.specs.Term.{names_eq};

use indexmap::IndexMap;
use std::alloc::Global;
use std::marker::Model;
use tp_terms::{Named, Names, NoMemory, Text};

/// How many variables are looked for one after another. Those behind them stand in a table.
const FEW: usize = 8;

/// The variables other than `_` with their numbers, in order of first occurrence, and how many
/// variables there are.
#[derive(Drop)]
pub struct Variables {
    /// The first ones.
    few: Vec<Named>,
    /// Those behind them.
    more: IndexMap<String, u64>,
    count: u64,
}

impl Model for Variables {
    ghost use Rattle.std.specs.Prelude.{◌++◌, map};
    ghost use Rattle.tp_parse.specs.Numbers.{Numbers};
    ghost use Rattle.tp_parse.specs.Tells.{named_of};
    ghost use Rattle.tp_parse.specs.Variables.{numbers_of};

    ghost Value = { Numbers };

    ghost view = { λ v. record {
      named = map named_of v.few.items ++ numbers_of v.more.entries;
      vars = v.count;
    } };
}

impl Variables {
    /// No variables.
    pub fn new(alloc: Global) -> Self
        ensures { result ≡ no_numbers }
    {
        Variables {
            few: Vec::new(alloc),
            more: IndexMap::new(alloc),
            count: 0,
        }
    }

    /// The number of a variable, each `_` having a number of its own.
    pub fn number(&mut self, name: &str) -> Result<u64, NoMemory>
        requires { self.old.vars + 1 < 2 ^ 64 }
        ensures { IfOk result (λ n. number_of (chars name.now) self.old ≡ (n, self.new)) }
    {
        let number = self.count;
        if is_anonymous(name) {
            self.count += 1;
            return Ok(number);
        }
        match find(&self.few, &self.more, name) {
            Some(known) => Ok(known),
            None => {
                add(&mut self.few, &mut self.more, name, number)?;
                self.count += 1;
                Ok(number)
            }
        }
    }

    /// How many variables there are.
    pub fn count(&self) -> u64
        ensures { result ≡ self.now.vars }
    {
        self.count
    }

    /// The names with their numbers.
    pub fn into_names(self) -> Result<Names, NoMemory>
        ensures { IfOk result (λ names. map named_of names ≡ self.named) }
    {
        let names = with_names(self.few, self.more)?;
        Ok(Names::new(names))
    }
}

/// Whether it is the name `_`.
fn is_anonymous(name: &str) -> bool
    ensures { result ≡ names_eq (chars name.now) (codes "_") }
{
    name == "_"
}

/// The number of a name, if it has one, among the first and those behind them.
fn find(few: &[Named], more: &IndexMap<String, u64>, name: &str) -> Option<u64>
    ensures { result ≡ number_in (map named_of few.now ++ numbers_of more.now.entries)
        (chars name.now) }
{
    match find_first(few, name) {
        Some(number) => Some(number),
        None => find_behind(more, name),
    }
}

/// The number of a name, if it is one of the first.
fn find_first(few: &[Named], name: &str) -> Option<u64>
    ensures { result ≡ number_in (map named_of few.now) (chars name.now) }
{
    for named in few {
        if name == named.name.as_str() {
            return Some(named.number);
        }
    }
    None
}

/// The number of a name, if the table has it.
fn find_behind(more: &IndexMap<String, u64>, name: &str) -> Option<u64>
    ensures { result ≡ number_in (numbers_of more.now.entries) (chars name.now) }
{
    if more.is_empty() {
        return None;
    }
    match more.get(name) {
        Some(number) => Some(*number),
        None => None,
    }
}

/// Adds a name that has no number, with this one.
fn add(
    few: &mut Vec<Named>,
    more: &mut IndexMap<String, u64>,
    name: &str,
    number: u64,
) -> Result<(), NoMemory>
    requires { number_in (map named_of few.old.items ++ numbers_of more.old.entries)
        (chars name.now) ≡ None }
    ensures { OnOk result (map named_of few.new.items ++ numbers_of more.new.entries
        ≡ (map named_of few.old.items ++ numbers_of more.old.entries)
        ++ (chars name.now, number) ∷ []) }
{
    if more.is_empty() && few.len() < FEW {
        return add_first(few, name, number);
    }
    add_behind(more, name, number)
}

/// Adds a name with its number to the first ones.
fn add_first(few: &mut Vec<Named>, name: &str, number: u64) -> Result<(), NoMemory>
    ensures { OnOk result (map named_of few.new.items
        ≡ map named_of few.old.items ++ (chars name.now, number) ∷ []) }
{
    let owned = String::from_str(*few.allocator(), name)?;
    few.push(Named {
        name: Text::new(owned),
        number,
    })?;
    Ok(())
}

/// Adds a name that has no number to the table, with this one.
fn add_behind(named: &mut IndexMap<String, u64>, name: &str, number: u64) -> Result<(), NoMemory>
    requires { number_in (numbers_of named.old.entries) (chars name.now) ≡ None }
    ensures { OnOk result (numbers_of named.new.entries
        ≡ numbers_of named.old.entries ++ (chars name.now, number) ∷ []) }
{
    let owned = String::from_str(*named.allocator(), name)?;
    named.insert(owned, number)?;
    Ok(())
}

/// The first names with their numbers, and then those of the table, in their order.
fn with_names(few: Vec<Named>, more: IndexMap<String, u64>) -> Result<Vec<Named>, NoMemory>
    ensures { IfOk result (λ names. map named_of names.items
        ≡ map named_of few.items ++ numbers_of more.entries) }
{
    let mut names = few;
    for (name, number) in more {
        names.push(Named {
            name: Text::new(name),
            number,
        })?;
    }
    Ok(names)
}
