// What the layers above rest on: how zones and spans lie in the file, and when two layouts are one.
ghost use Rattle.std.specs.Prelude.{◌≡◌, ◌⊎◌};
ghost use Rattle.df_layout.specs.{Order.{ZonesFollow, IsInside, AreApart, ShareHeaderSector}, Spans.{HasPlace, span_of}, declared.layout.Layout.{Layout}, declared.places.Place.{Place}};

/// The zones follow one another with no gap, but for less than a block of padding before the grid.
pub fn zones_in_order()
    ensures { (layout : Layout) → ZonesFollow layout }
{}

/// Every span lies within its zone, and so within the file.
pub fn places_are_inside()
    ensures { (layout : Layout) (place : Place) → HasPlace layout place → IsInside layout place }
{}

/// The spans of two places share no sector, unless the places are one or are header slots of one sector.
pub fn places_are_apart()
    ensures { (layout : Layout) (a b : Place) → HasPlace layout a → HasPlace layout b
        → (a ≡ b) ⊎ ShareHeaderSector a b ⊎ AreApart (span_of layout a) (span_of layout b) }
{}

/// Two layouts of the same numbers are one.
pub fn layouts_are_numbers()
    ensures { (a b : Layout) → a.slots ≡ b.slots → a.message_size ≡ b.message_size → a.clients ≡ b.clients
        → a.block_size ≡ b.block_size → a.blocks ≡ b.blocks → a ≡ b }
{}
