//! The laws of 64b/66b lanes, and the laws of their runs.
ghost use Rattle.link_laws_c.specs.LaneLawsC.{
  BoundC,
  DepthC,
  FullestC,
  LaneLawsC,
  LatencyC,
  MarksC,
  OutsideC,
};

/// The laws of a lane hold of the run of each legal plan with 64b/66b lanes, with CRC-12 and with
/// FEC (JESD204C.1, 64b/66b link layer: block, multiblock and extended multiblock synchronization).
///
/// Where no pattern of a lock stands where no multiblock begins: on a clean line a lane is locked in
/// time, and only where the transmitter has a phase. On a clean line, or with one burst in each
/// multiblock under FEC, it starts exactly with the first block of an extended multiblock that
/// leaves the wait for its check after the arming; an armed lane is never lost, and each of its
/// entries carries the octets that were handed in, ok on a clean line and never bad.
///
/// So where SYSREF edges and lanes meet their windows on such a line, each frame leaves unchanged
/// exactly the link's latency after it entered; on a clean line delivery starts within the link's
/// bound; and where a lane is outside its window, an alarm is raised for such a lane, and nothing
/// is released.
///
/// In every run, whatever its lines do, each elastic buffer has room for the entry of each tick and
/// holds one in each tick in which it is to give one, and the fullest buffer of the report is
/// within its depth. Each delivered frame has exactly the mark that its octets are due: the worst of
/// what the checks say of their own blocks and of the blocks before these.
pub fn lane_laws_of_lanes_c()
    ensures lane_laws { LaneLawsC }
    ensures latency { LatencyC }
    ensures bound { BoundC }
    ensures depth { DepthC }
    ensures fullest { FullestC }
    ensures outside { OutsideC }
    ensures marks { MarksC }
{}
