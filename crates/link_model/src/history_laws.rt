//! Laws of histories.
ghost use Rattle.link_model.specs.laws.HistoryLaws.{BeginsTheSame, HasEachTick, OneATick};

/// The history of a run of t ticks has t moments, is the beginning of the history of each longer
/// run, and its moment of a tick is what the definition gives for that tick. So what is said of a
/// run up to a tick is said of the whole.
pub fn histories()
    ensures one_a_tick { OneATick }
    ensures begins_the_same { BeginsTheSame }
    ensures has_each_tick { HasEachTick }
{}
