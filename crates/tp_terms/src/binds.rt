//! What variables are bound to.

ghost use Rattle.std.specs.Prelude.{◌≡◌, [], None};
ghost use Rattle.tp_terms.specs.Binds.{Bindings, bound_in};

use crate::cells::Ref;

/// A finite map from the numbers of variables to places. Whose places they are isn't said here:
/// `Fits` of specs/Binds.antt says it.
pub trait Binds {
    ghost bindings: { Self → Bindings };

    /// The place that a variable is bound to, and `None` exactly where it is unbound. Takes no
    /// memory.
    fn bound(&self, number: u64) -> Option<Ref>
        ensures { result ≡ bound_in (bindings self.now) number };
}

/// Binds nothing.
#[derive(Clone, Copy, Debug, PartialEq, Eq)]
pub struct NoBinds;

impl Binds for NoBinds {
    ghost bindings = { λ _. [] };

    fn bound(&self, _number: u64) -> Option<Ref> {
        None
    }
}
