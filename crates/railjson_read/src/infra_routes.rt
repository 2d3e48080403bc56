//! Routes, operational points and speed sections of an infrastructure's file.

mod point_lists;
mod route_lists;
mod speed_lists;
mod way_lists;

pub use point_lists::points_of;
pub use route_lists::routes_of;
pub use speed_lists::speeds_of;
