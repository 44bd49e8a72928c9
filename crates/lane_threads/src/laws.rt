//! Laws of segments.
ghost use Rattle.lane_threads.specs.laws.SegmentLaws.{KeepsPairs, LanesGoOn};

/// What a segment leaves: a lane and the end of its ring stay a pair, and lanes that went through
/// some runs go on through the segment.
pub fn segments_go_on()
    ensures pairs { KeepsPairs }
    ensures lanes { LanesGoOn }
{}
