//! The built-in goals that look at terms alone.
#![tactic(auto)]

mod argument;
mod arithmetic;
mod atoms;
mod checks;
mod codes;
mod decided;
mod dispatch;
mod errors;
mod families;
mod functors;
mod kinds;
mod lists;
mod lookup;
mod order;
mod outcome;
mod parts;
mod unification;

pub use argument::arg;
pub use arithmetic::{compare_values, evaluate_and_unify};
pub use atoms::atom_length;
pub use codes::atom_codes;
pub use dispatch::builtin;
pub use functors::functor;
pub use kinds::{Kind, test_kind};
pub use lookup::find;
pub use order::{OrderRelation, compare_terms};
pub use outcome::Outcome;
pub use parts::univ;
pub use unification::{copy_term, not_unifiable, unify};
