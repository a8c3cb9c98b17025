// The chip's parts and the bus between them: RAM, registers and the image.
#![tactic(auto)]

pub mod fetch;
pub mod image;
pub mod parts;
pub mod register;
pub mod stack;
pub mod view;
