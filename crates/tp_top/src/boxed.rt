//! Lists of boxed meters.

ghost use Rattle.std.specs.Prelude.{◌≡◌, map};
ghost use Rattle.tp_meters.specs.Meters.{meter_next, zeros};

use tp_meters::{EventView, Meter};

/// Sets all numbers of one boxed meter to 0.
fn clear_boxed(meter: &mut Box<dyn Meter>)
    ensures kind { kind_of meter.new ≡ kind_of meter.old }
    ensures state { state meter.new ≡ zeros (kind_of meter.old) }
{
    meter.clear();
}

/// Sets all numbers of all meters to 0.
pub fn clear_all(meters: &mut Vec<Box<dyn Meter>>)
    ensures kinds { map kind_of meters.new.items ≡ map kind_of meters.old.items }
    ensures states { map state meters.new.items ≡ map (λ m. zeros (kind_of m)) meters.old.items }
{
    for meter in meters.iter_mut() {
        clear_boxed(meter);
    }
}

/// Lets one boxed meter count one more event.
fn take_boxed(meter: &mut Box<dyn Meter>, event: &EventView)
    ensures kind { kind_of meter.new ≡ kind_of meter.old }
    ensures state { state meter.new ≡ meter_next (kind_of meter.old) (state meter.old) event.now }
{
    meter.take(event);
}

/// Lets all meters count one more event.
pub fn take_all(meters: &mut Vec<Box<dyn Meter>>, event: &EventView)
    ensures kinds { map kind_of meters.new.items ≡ map kind_of meters.old.items }
    ensures states { map state meters.new.items
        ≡ map (λ m. meter_next (kind_of m) (state m) event.now) meters.old.items }
{
    for meter in meters.iter_mut() {
        take_boxed(meter, event);
    }
}
