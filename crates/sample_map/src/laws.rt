//! Laws of the layout.
ghost use Rattle.sample_map.specs.Frames.{OneFrame, OneReading};
ghost use Rattle.sample_map.specs.laws.LayoutLaws.{PlacesApart, PlacesFit, ReadsBack};

/// Places lie within the frame and apart from one another, and reading undoes laying out.
/// There is one frame of some words, and one list of words of a frame.
pub fn layout_laws()
    ensures fit { PlacesFit }
    ensures apart { PlacesApart }
    ensures again { ReadsBack }
    ensures one_frame { OneFrame }
    ensures one_reading { OneReading }
{}
