//! The parts of pictures that say nothing of a curve.

/// A picture up to the number at the upper end of its axis of values: both axes, and the middle
/// of the upper half. The element of the picture begins before it.
pub const AXES: &[u8] =
    b"<path d=\"M200 40V540M200 40H1340M200 240H1340\"/><path d=\"M200 440H1340\" style=\"stroke:var(--ink)\"/>\
<text x=\"200\" y=\"610\" text-anchor=\"middle\">0%</text><text x=\"740\" y=\"610\" text-anchor=\"middle\">line 50% faster</text>\
<text x=\"1330\" y=\"610\" text-anchor=\"middle\">100%</text><text x=\"180\" y=\"453\" text-anchor=\"end\">0</text>\
<text x=\"180\" y=\"53\" text-anchor=\"end\">";

/// A small picture up to the places of its line: the axis of speedups. It says nothing to readers
/// of screens, since the values are beside it.
pub const SMALL_AXES: &[u8] =
    b"<svg class=\"small\" aria-hidden=\"true\" viewBox=\"180 20 1180 540\">\
<path d=\"M200 440H1340\"/><polyline points=\"";
