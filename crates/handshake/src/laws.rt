ghost use Rattle.handshake.specs.Laws.{TypesLaw, FrameLaw, LayoutLaw, MessageLaw, PlaceLaw, EndsLaw};
ghost use Rattle.handshake.specs.Vectors.{VectorsLaw};

/// The types and their numbers undo each other.
pub fn types_stand() -> u8
    ensures { TypesLaw }
{
    0
}

/// The frame reads back what it wrote, and writes again what it read.
pub fn frame_stands() -> u8
    ensures { FrameLaw }
{
    0
}

/// The body of every kind reads back to its parts, and its parts fix its octets.
pub fn layouts_stand() -> u8
    ensures { LayoutLaw }
{
    0
}

/// So does every whole message.
pub fn messages_stand() -> u8
    ensures { MessageLaw }
{
    0
}

/// Parts stand in their message where their spans say.
pub fn places_stand() -> u8
    ensures { PlaceLaw }
{
    0
}

/// What the ends write keeps the layouts and the limits.
pub fn ends_stand() -> u8
    ensures { EndsLaw }
{
    0
}

/// Messages written out by hand are those that the definitions give.
pub fn vectors_stand() -> u8
    ensures { VectorsLaw }
{
    0
}
