//! Exact tests on geometries: whether they meet, and whether a point lies within one.
#![tactic(auto)]

mod bounded;
mod closed_box;
mod edge;
mod laws;
mod meeting;
mod polygon;
mod segment;
mod vertex;

pub use bounded::Bounded;
pub use closed_box::{ClosedBox, meets_box};
pub use edge::{Shape, any_edge, any_edge_between};
pub use laws::{
    holds_each_edge, lies_in_bounds_where_in_area, lies_in_bounds_where_meeting,
    lies_in_bounds_where_within, meeting_is_symmetric, meets_its_box, meets_where_in_box,
    meets_where_within, overlaps_a_box_it_meets, overlaps_where_meeting,
    overlaps_where_meeting_an_edge,
};
pub use meeting::{has_area, intersects, within};
pub use polygon::{in_area, is_crossed, on_edge};
pub use segment::{Segment, box_of, do_overlap, is_in_box, segments_meet};
pub use vertex::{Region, any_point, any_vertex};
