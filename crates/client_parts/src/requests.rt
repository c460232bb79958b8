// What each command asks, byte by byte.
mod bodies;
pub mod containers;
mod escaped;
pub mod execs;
mod keys;
mod pieces;
pub mod views;
pub mod volumes;
mod written;
