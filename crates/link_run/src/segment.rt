//! A segment of ticks, planned before the lanes run it.
ghost use Rattle.std.specs.Prelude.{◌≡◌, ◌<◌, ◌++◌, ◌∷◌, [], false, length, IfOk};

use crate::edges::Edges;
use jesd_base::NoMemory;
use lane_threads::Step;
use link_params::{RxOrder, TxOrder};
use std::alloc::Global;
use std::marker::Model;

/// The orders of some ticks in a row, and what the report asks of them: edges off a boundary, and
/// whether the receiver was reset in the first one. Contracts see it as these lists, whether the
/// lanes give between the ticks, whether the receiver decides in the last one, and its room.
#[derive(Drop)]
pub struct Segment {
    // The first `count` of each are planned.
    count: usize,
    steps: Vec<Step>,
    edges: Vec<Edges>,
    rx_reset: bool,
    gives: bool,
    decides: bool,
}

impl Model for Segment {
    ghost use Rattle.std.specs.Prelude.{◌≡◌, ◌≤◌, length, take};
    ghost use Rattle.link_run.specs.kept.Segments.{Planned};

    ghost Value = { Planned };

    ghost view = { λ g. record {
      steps = take g.count g.steps.items;
      edges = take g.count g.edges.items;
      rx_reset = g.rx_reset;
      gives = g.gives;
      decides = g.decides;
      room =
          length g.steps.items;
    } };

    ghost invariant = { λ g. (g.count ≤ length g.steps.items)
        × (length g.edges.items ≡ length g.steps.items) };
}

impl Segment {
    /// A segment without ticks, with room for so many. All its memory is taken here; `NoMemory`
    /// where there is none.
    pub fn open(alloc: Global, room: u32) -> Result<Segment, NoMemory>
        ensures { IfOk result (λ g. g ≡ record {
          steps = [];
          edges = [];
          rx_reset = false;
          gives = false;
          decides = false;
          room =
              room;
        }) }
    {
        let step = Step {
            tx: TxOrder::Silent,
            rx: RxOrder {
                hunt: false,
                armed: false,
                offset: 0,
            },
        };
        let none = Edges { tx: None, rx: None };
        let (Ok(steps), Ok(edges)) = (
            vec![in alloc; step; room as usize],
            vec![in alloc; none; room as usize],
        ) else {
            return Err(NoMemory);
        };
        Ok(Segment {
            count: 0,
            steps,
            edges,
            rx_reset: false,
            gives: false,
            decides: false,
        })
    }

    /// A segment begins, in whose first tick the receiver is reset or not.
    pub fn begin(&mut self, rx_reset: bool)
        ensures { self.new ≡ record self.old {
          steps = [];
          edges = [];
          rx_reset = rx_reset;
          decides =
              false;
        } }
    {
        self.count = 0;
        self.rx_reset = rx_reset;
        self.decides = false;
    }

    /// Whether the lanes give an entry after each tick but the last.
    pub fn set_gives(&mut self, gives: bool)
        ensures { self.new ≡ record self.old { gives = gives } }
    {
        self.gives = gives;
    }

    /// A tick more: its orders, its edges off a boundary, and whether the receiver decides in it.
    pub fn push(&mut self, step: Step, edges: Edges, decides: bool)
        requires { length self.old.steps < self.old.room }
        ensures { self.new ≡ record self.old {
          steps = self.old.steps ++ step ∷ [];
          edges = self.old.edges ++ edges ∷ [];
          decides =
              decides;
        } }
    {
        self.steps[self.count] = step;
        self.edges[self.count] = edges;
        self.count += 1;
        self.decides = decides;
    }

    /// How many ticks it has.
    pub fn len(&self) -> usize
        ensures { result ≡ length self.now.steps }
    {
        self.count
    }

    /// The orders of each tick.
    pub fn steps(&self) -> &[Step]
        ensures { result.now ≡ self.now.steps }
    {
        &self.steps[..self.count]
    }

    /// The edges off a boundary of each tick.
    pub fn edges(&self) -> &[Edges]
        ensures { result.now ≡ self.now.edges }
    {
        &self.edges[..self.count]
    }

    /// Whether the receiver was reset in its first tick.
    pub fn rx_reset(&self) -> bool
        ensures { result ≡ self.now.rx_reset }
    {
        self.rx_reset
    }

    /// Whether the lanes give an entry after each tick but the last.
    pub fn gives(&self) -> bool
        ensures { result ≡ self.now.gives }
    {
        self.gives
    }

    /// Whether the receiver decides in its last tick.
    pub fn decides(&self) -> bool
        ensures { result ≡ self.now.decides }
    {
        self.decides
    }
}
