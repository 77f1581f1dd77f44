//! The order in which a seat lists its slots.
ghost use Rattle.std.specs.Prelude.{◌≡◌};
ghost use Rattle.claim_table.specs.Held.{brought};

use atomic_table::Seat;

// Moves a slot to the front of the list. The list has no bytes, so nothing happens at run time.
pub(crate) fn bring<S, V>(seat: &mut Seat<S, V>, slot: usize)
    ensures { (seat.new.table_id ≡ seat.old.table_id) × (seat.new.id ≡ seat.old.id) × (seat.new.me ≡ (seat.old.me.0, brought slot seat.old.me.1)) }
{}
