//! Laws over a run that follow from the laws of a lane.
ghost use Rattle.link_laws.specs.Laws.{BoundFromLanes, LatencyFromLanes, OutsideFromLanes};

/// Where the laws of a lane hold of a plan's run, so do these, for any kind of lane and any mode:
/// after a release each frame leaves the link's latency after it entered, with its words; an
/// undisturbed link whose edges and lanes meet their windows delivers within its bound; and where a
/// lane is outside its window, the first decision that finds a start raises an alarm for such a
/// lane, and nothing is released (JESD204B.01 clause 6, deterministic latency).
pub fn laws_from_lanes()
    ensures latency { LatencyFromLanes }
    ensures bound { BoundFromLanes }
    ensures outside { OutsideFromLanes }
{}
