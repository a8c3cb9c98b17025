// The chip's ports, and its interrupt requests with the edges that set them.
#![tactic(auto)]

mod bits;
pub mod edges;
pub mod port;
pub mod request;
