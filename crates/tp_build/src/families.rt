//! Built-in goals by the number of their arguments.

ghost use Rattle.tp_build.specs.Families.{IsOf};

use crate::kinds::Kind;
use crate::order::OrderRelation;
use tp_arith::Relation;
use tp_meaning::BuiltId;

/// A built-in by the number of its arguments.
#[derive(Clone, Copy, Debug, PartialEq, Eq)]
pub enum Family {
    /// A test of a term's kind.
    One(Kind),
    /// A goal with two arguments.
    Two(GoalOfTwo),
    /// A goal with three arguments.
    Three(GoalOfThree),
}

/// A goal with two arguments.
#[derive(Clone, Copy, Debug, PartialEq, Eq)]
pub enum GoalOfTwo {
    /// `=`.
    Unify,
    /// `\=`.
    NotUnifiable,
    /// A comparison by the standard order.
    Order(OrderRelation),
    /// `is`.
    Is,
    /// A comparison of values.
    Values(Relation),
    /// `=..`.
    Univ,
    /// `copy_term`.
    CopyTerm,
    /// `atom_length`.
    AtomLength,
    /// `atom_codes`.
    AtomCodes,
}

/// A goal with three arguments.
#[derive(Clone, Copy, Debug, PartialEq, Eq)]
pub enum GoalOfThree {
    /// `functor`.
    Functor,
    /// `arg`.
    Arg,
}

/// The family of a built-in.
pub fn family_of(id: BuiltId) -> Family
    ensures { IsOf id result }
{
    match id {
        BuiltId::Var => Family::One(Kind::Variable),
        BuiltId::Nonvar => Family::One(Kind::Nonvariable),
        BuiltId::Atom => Family::One(Kind::Atom),
        BuiltId::Integer => Family::One(Kind::Integer),
        BuiltId::Atomic => Family::One(Kind::Atomic),
        BuiltId::Compound => Family::One(Kind::Compound),
        BuiltId::Callable => Family::One(Kind::Callable),
        BuiltId::Unify => Family::Two(GoalOfTwo::Unify),
        BuiltId::NotUnifiable => Family::Two(GoalOfTwo::NotUnifiable),
        BuiltId::Same => Family::Two(GoalOfTwo::Order(OrderRelation::Same)),
        BuiltId::NotSame => Family::Two(GoalOfTwo::Order(OrderRelation::NotSame)),
        BuiltId::Before => Family::Two(GoalOfTwo::Order(OrderRelation::Before)),
        BuiltId::BeforeOrSame => Family::Two(GoalOfTwo::Order(OrderRelation::BeforeOrSame)),
        BuiltId::After => Family::Two(GoalOfTwo::Order(OrderRelation::After)),
        BuiltId::AfterOrSame => Family::Two(GoalOfTwo::Order(OrderRelation::AfterOrSame)),
        BuiltId::Is => Family::Two(GoalOfTwo::Is),
        BuiltId::NumberEqual => Family::Two(GoalOfTwo::Values(Relation::Equal)),
        BuiltId::NumberUnequal => Family::Two(GoalOfTwo::Values(Relation::Unequal)),
        BuiltId::Less => Family::Two(GoalOfTwo::Values(Relation::Less)),
        BuiltId::LessEqual => Family::Two(GoalOfTwo::Values(Relation::LessEqual)),
        BuiltId::Greater => Family::Two(GoalOfTwo::Values(Relation::Greater)),
        BuiltId::GreaterEqual => Family::Two(GoalOfTwo::Values(Relation::GreaterEqual)),
        BuiltId::Functor => Family::Three(GoalOfThree::Functor),
        BuiltId::Arg => Family::Three(GoalOfThree::Arg),
        BuiltId::Univ => Family::Two(GoalOfTwo::Univ),
        BuiltId::CopyTerm => Family::Two(GoalOfTwo::CopyTerm),
        BuiltId::AtomLength => Family::Two(GoalOfTwo::AtomLength),
        BuiltId::AtomCodes => Family::Two(GoalOfTwo::AtomCodes),
    }
}
