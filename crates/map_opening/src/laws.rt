//! Laws on how bytes open: each function states its law as its `ensures`.

ghost use Rattle.map_opening.specs.Laws.{OpensForAll, OpensOneWay, OpensSomeWay};

use map_text::one_reading_law;

/// Bytes open in one way.
pub fn opens_one_way_law()
    ensures { OpensOneWay }
{
    one_reading_law();
}

/// Any bytes open in some way.
pub fn opens_law()
    ensures { OpensSomeWay }
{
    one_reading_law();
}

/// Any bytes open in one way for all right tests on solids.
pub fn opens_for_all_law()
    ensures { OpensForAll }
{
    one_reading_law();
}
