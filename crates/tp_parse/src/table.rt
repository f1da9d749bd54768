//! The table of operators.

ghost use Rattle.std.specs.Prelude.{◌≡◌, ℕ, ◌≤◌, List, map, fold, drop, chars, codes, IsTrue, IfOk};
ghost use Rattle.std.specs.Prelude.{OnErr, OnOk, if◌then◌else◌};
ghost use Rattle.tp_terms.specs.Term.{Name};
ghost use Rattle.tp_parse.specs.Table.{add_op, changed, empty_table, entry_of, is_kept_name};
ghost use Rattle.tp_parse.specs.Table.{is_prefix, left_bound, right_bound, start_table, type_of};
ghost use Rattle.tp_parse.specs.Table.{with_op};
ghost use Rattle.tp_parse.specs.Ops.{TellsAdd, entries_of, found_in, table_of};
ghost use Rattle.tp_parse.specs.Start.{with_operators};

use crate::class::Class;
use std::alloc::{AllocError, AllocFailed, Global};
use std::marker::Model;
use tp_terms::NoMemory;

/// The type of an operator (ISO/IEC 13211-1, clause 6.3.4.1).
#[derive(Clone, Copy, Debug, PartialEq, Eq)]
pub enum OpType {
    /// Infix, with operands of lesser priorities.
    Xfx,
    /// Infix, whose right operand may have the same priority.
    Xfy,
    /// Infix, whose left operand may have the same priority.
    Yfx,
    /// Prefix, whose operand may have the same priority.
    Fy,
    /// Prefix, with an operand of a lesser priority.
    Fx,
}

/// Why an operator wasn't added.
#[derive(Clone, Copy, Debug, PartialEq, Eq)]
pub enum OpFault {
    /// The priority is not from 0 to 1200.
    Priority,
    /// The type is none of `xfx`, `xfy`, `yfx`, `fy` and `fx`.
    Kind,
    /// The name is `,`, `|`, `[]` or `{}`.
    Name,
    /// Memory was refused.
    NoMemory,
}

impl From<NoMemory> for OpFault {
    ghost use Rattle.std.specs.Prelude.{◌≡◌};
    ghost use Rattle.tp_parse.specs.declared.table.OpFault.TheVariants.{NoMemory as Refused};

    ghost from_gives = { λ _ e. e ≡ Refused };

    fn from(_refused: NoMemory) -> Self {
        OpFault::NoMemory
    }
}

/// An operator's priority, from 1 to 1200, and its type.
pub type Op = (u16, OpType);

/// The largest priority of an operator's left operand; a prefix operator has none.
pub fn left_bound(op: Op) -> u16
    ensures { result ≡ left_bound op }
{
    match op.1 {
        OpType::Xfx | OpType::Xfy => op.0.saturating_sub(1),
        OpType::Yfx => op.0,
        OpType::Fy | OpType::Fx => 0,
    }
}

/// The largest priority of an operator's right operand.
pub fn right_bound(op: Op) -> u16
    ensures { result ≡ right_bound op }
{
    match op.1 {
        OpType::Xfx | OpType::Yfx | OpType::Fx => op.0.saturating_sub(1),
        OpType::Xfy | OpType::Fy => op.0,
    }
}

/// The operators at the start, in the order of their priorities.
const START_OPERATORS: [(u16, OpType, &str); 40] = [
    (1200, OpType::Xfx, ":-"),
    (1200, OpType::Xfx, "-->"),
    (1200, OpType::Fx, ":-"),
    (1200, OpType::Fx, "?-"),
    (1100, OpType::Xfy, ";"),
    (1050, OpType::Xfy, "->"),
    (1000, OpType::Xfy, ","),
    (900, OpType::Fy, "\\+"),
    (700, OpType::Xfx, "="),
    (700, OpType::Xfx, "\\="),
    (700, OpType::Xfx, "=="),
    (700, OpType::Xfx, "\\=="),
    (700, OpType::Xfx, "@<"),
    (700, OpType::Xfx, "@=<"),
    (700, OpType::Xfx, "@>"),
    (700, OpType::Xfx, "@>="),
    (700, OpType::Xfx, "=.."),
    (700, OpType::Xfx, "is"),
    (700, OpType::Xfx, "=:="),
    (700, OpType::Xfx, "=\\="),
    (700, OpType::Xfx, "<"),
    (700, OpType::Xfx, "=<"),
    (700, OpType::Xfx, ">"),
    (700, OpType::Xfx, ">="),
    (500, OpType::Yfx, "+"),
    (500, OpType::Yfx, "-"),
    (500, OpType::Yfx, "/\\"),
    (500, OpType::Yfx, "\\/"),
    (400, OpType::Yfx, "*"),
    (400, OpType::Yfx, "/"),
    (400, OpType::Yfx, "//"),
    (400, OpType::Yfx, "rem"),
    (400, OpType::Yfx, "mod"),
    (400, OpType::Yfx, "div"),
    (400, OpType::Yfx, "<<"),
    (400, OpType::Yfx, ">>"),
    (200, OpType::Xfx, "**"),
    (200, OpType::Xfy, "^"),
    (200, OpType::Fy, "-"),
    (200, OpType::Fy, "\\"),
];

/// The operators: each name has at most one entry as a prefix operator and at most one as an infix
/// operator.
#[derive(Drop)]
pub struct Ops {
    prefixes: Class,
    infixes: Class,
    /// The infix operator `,`, which is asked for at each comma.
    comma: Option<Op>,
}

impl Model for Ops {
    ghost use Rattle.std.specs.Prelude.{◌≡◌, codes};
    ghost use Rattle.tp_parse.specs.Ops.{Entries, found_in};

    ghost Value = { Entries };

    ghost view = { λ o. record {
      prefixes = o.prefixes;
      infixes = o.infixes;
    } };

    ghost invariant = { λ o. o.comma ≡ found_in o.infixes (codes ",") };
}

impl Ops {
    /// The table of the start, as docs/LANGUAGE.md lists it.
    ///
    /// Answers `NoMemory` where the memory for it isn't had.
    pub fn start(alloc: Global) -> Result<Ops, NoMemory>
        ensures { IfOk result (λ ops. table_of ops ≡ start_table) }
    {
        let mut ops = Ops::empty(alloc);
        set_all(&mut ops, &START_OPERATORS)?;
        Ok(ops)
    }

    /// No operators.
    fn empty(alloc: Global) -> Ops
        ensures { table_of result ≡ empty_table }
    {
        Ops {
            prefixes: Class::new(alloc),
            infixes: Class::new(alloc),
            comma: None,
        }
    }

    /// Adds an operator (ISO/IEC 13211-1, clause 8.14.3). It takes the place of the name's entry in
    /// its class, and priority 0 takes that entry out.
    ///
    /// # Errors
    /// The first of these that holds: `Priority` where the priority isn't from 0 to 1200, `Kind`
    /// where the type is none of `xfx`, `xfy`, `yfx`, `fy` and `fx`, `Name` where the name is `,`,
    /// `|`, `[]` or `{}`; and `NoMemory` where memory was refused, which comes only where none of
    /// those holds. The table is then as before.
    pub fn add(&mut self, priority: i64, kind: &str, name: &str) -> Result<(), OpFault>
        ensures value { TellsAdd (table_of self.new) result
            (add_op priority (chars kind.now) (chars name.now) (table_of self.old)) }
        ensures err { OnErr result (self.new ≡ self.old) }
    {
        if priority < 0 || priority > 1200 {
            return Err(OpFault::Priority);
        }
        let Some(kind) = OpType::named(kind) else {
            return Err(OpFault::Kind);
        };
        if is_kept_name(name) {
            return Err(OpFault::Name);
        }
        self.set(priority as u16, kind, name)?;
        Ok(())
    }

    /// The prefix operator of a name, if it is one. Takes no memory.
    pub fn prefix(&self, name: &str) -> Option<Op>
        ensures { result ≡ (table_of self.now).prefixes (chars name.now) }
    {
        self.prefixes.find(name)
    }

    /// The infix operator of a name, if it is one. Takes no memory.
    pub fn infix(&self, name: &str) -> Option<Op>
        ensures { result ≡ (table_of self.now).infixes (chars name.now) }
    {
        self.infixes.find(name)
    }

    /// The infix operator of `,`, if it is one. Takes no memory.
    pub fn comma(&self) -> Option<Op>
        ensures { result ≡ (table_of self.now).infixes (codes ",") }
    {
        self.comma
    }

    /// Changes the infix operator of a name.
    fn set_infix(&mut self, name: &str, entry: Option<Op>) -> Result<(), NoMemory>
        ensures prefixes { self.new.prefixes ≡ self.old.prefixes }
        ensures ok { OnOk result (found_in self.new.infixes
            ≡ changed (chars name.now) entry (found_in self.old.infixes)) }
        ensures err { OnErr result (self.new ≡ self.old) }
    {
        self.infixes.set(name, entry)?;
        self.comma = self.infixes.find(",");
        Ok(())
    }

    /// Sets the entry of a name in the type's class; none for priority 0.
    fn set(&mut self, priority: u16, kind: OpType, name: &str) -> Result<(), NoMemory>
        ensures ok { OnOk result
            (table_of self.new ≡ with_op priority kind (chars name.now) (table_of self.old)) }
        ensures err { OnErr result (self.new ≡ self.old) }
    {
        let entry = if priority == 0 {
            None
        } else {
            Some((priority, kind))
        };
        if kind.is_prefix() {
            self.prefixes.set(name, entry)
        } else {
            self.set_infix(name, entry)
        }
    }
}

impl OpType {
    /// The type of a name.
    fn named(name: &str) -> Option<OpType>
        ensures { result ≡ type_of (chars name.now) }
    {
        match name {
            "xfx" => Some(OpType::Xfx),
            "xfy" => Some(OpType::Xfy),
            "yfx" => Some(OpType::Yfx),
            "fy" => Some(OpType::Fy),
            "fx" => Some(OpType::Fx),
            _ => None,
        }
    }

    /// Whether it is a type of prefix operators.
    fn is_prefix(self) -> bool
        ensures { result ≡ is_prefix self }
    {
        match self {
            OpType::Xfx | OpType::Xfy | OpType::Yfx => false,
            OpType::Fy | OpType::Fx => true,
        }
    }
}

/// Sets these entries in turn.
fn set_all(ops: &mut Ops, operators: &[(u16, OpType, &str)]) -> Result<(), NoMemory>
    ensures { let added = map (λ o. (o.0, o.1, chars (o.2).now)) operators.now in
        OnOk result (table_of ops.new ≡ with_operators (table_of ops.old) added) }
{
    for (priority, kind, name) in operators {
        ops.set(*priority, *kind, name)?;
    }
    Ok(())
}

/// Whether no operator may have the name.
fn is_kept_name(name: &str) -> bool
    ensures { result ≡ is_kept_name (chars name.now) }
{
    match name {
        "," | "|" | "[]" | "{}" => true,
        _ => false,
    }
}
