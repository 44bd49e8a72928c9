//! Both ends of a lane's ring in one hand.
ghost use Rattle.std.specs.Prelude.{◌≡◌, ◌++◌};
ghost use Rattle.rtrb.specs.Ring.{SameProducer, known_items, received, sent};
ghost use Rattle.lane_threads.specs.Segments.{IsOnePair};

use crate::cell_end::CellEnd;
use crate::lane::Lane;
use crate::lane_pair::LanePair;

/// Both ends of a ring meet: afterwards the cells that were sent and not received are known to be
/// there. The lane and the end come from one `open`.
pub fn meet(lane: &mut LanePair, end: &mut CellEnd)
    requires pair { IsOnePair lane.old end.old }
    ensures pair { IsOnePair lane.new end.new }
    ensures lane { (lane.new.lane ≡ lane.old.lane) × (lane.new.octets.items ≡ lane.old.octets.items) × (lane.new.fullest ≡ lane.old.fullest) }
    ensures ring { SameProducer lane.old.ring lane.new.ring × (lane.new.room ≡ lane.old.room) × (sent lane.new.ring ≡ sent lane.old.ring) }
    ensures received { received end.new.ring ≡ received end.old.ring }
    ensures fifo { received end.new.ring ++ known_items end.new.ring ≡ sent lane.new.ring }
{
    let known = end.ring.slots_beside(&mut lane.ring);
    end.known = known as u32;
}

fn is_send<T: Send>() {}

/// A lane and the end of its ring may go to other threads.
pub fn ends_are_send() {
    is_send::<LanePair>();
    is_send::<CellEnd>();
    is_send::<Lane>();
}
