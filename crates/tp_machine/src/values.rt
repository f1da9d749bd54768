//! Arithmetic on the machine's terms.

ghost use Rattle.std.specs.Prelude.{◌≡◌, ◌<◌, length, IfOk};
ghost use Rattle.tp_store.specs.Contents.{seen};
ghost use Rattle.tp_meaning.specs.Arith.{evaluated};
ghost use Rattle.tp_arith.specs.Values.{Evaluates};
ghost use Rattle.tp_machine.specs.Times.{timely};

use crate::errors::{Cause, Domain};
use crate::machine::Machine;
use tp_arith::{Raise, eval};
use tp_terms::{NoMemory, Ref};

/// A time that a goal gives.
#[derive(Clone, Copy, Debug)]
pub enum Given {
    /// The time.
    Time(i64),
    /// Why there is none.
    Refused(Cause),
}

/// A time, where it is no less than the least of its domain.
fn timely(domain: Domain, time: i64, least: i64) -> Given
    ensures { result ≡ timely domain time least }
{
    if time < least {
        Given::Refused(Cause::OutOfDomain(domain, time))
    } else {
        Given::Time(time)
    }
}

impl<'a> Machine<'a> {
    ghost use Rattle.tp_machine.specs.Machine.{IsMachine};
    ghost use Rattle.tp_machine.specs.BuiltIns.{Grew, heap_in};
    ghost use Rattle.tp_machine.specs.Times.{IsTime};

    /// The value of the term of a place, or the place of the kind of its first error. Only cells
    /// are added, and the machine stands for the same world.
    pub(crate) fn evaluate(&mut self, place: Ref) -> Result<i64, Raise>
        requires machine { IsMachine self.old }
        requires place { place.at < length self.old.state.store.cells }
        ensures value { Evaluates (heap_in self.new)
            (evaluated (seen self.old.atoms self.old.state.store place.at)) result }
        ensures grew { Grew self.old self.new }
    {
        let alloc = self.state.store.allocator();
        self.swap_terms();
        let value = eval(alloc, &mut self.view, place);
        self.swap_terms();
        // Its contract tells what holds of every store.
        let _mark = self.state.store.mark();
        value
    }

    /// The value of the term of a place as a time, which is no less than the least of its domain,
    /// or why there is none. Only cells are added.
    pub(crate) fn time_at(
        &mut self,
        place: Ref,
        domain: Domain,
        least: i64,
    ) -> Result<Given, NoMemory>
        requires machine { IsMachine self.old }
        requires place { place.at < length self.old.state.store.cells }
        ensures time { IfOk result (IsTime self.new
            (seen self.old.atoms self.old.state.store place.at) domain least) }
        ensures grew { Grew self.old self.new }
    {
        match self.evaluate(place) {
            Ok(time) => Ok(timely(domain, time, least)),
            Err(Raise::Raised(kind)) => Ok(Given::Refused(Cause::Kind(kind))),
            Err(Raise::NoMemory) => Err(NoMemory),
        }
    }
}
