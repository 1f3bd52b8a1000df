//! Tests of what no line of a file of cases can say, over public items alone: containers, the longest values, streams and
//! folders that fail in the middle, the real ones, and connections.
#![tactic(auto)]

#[cfg(test)]
mod containers;
#[cfg(test)]
mod folders;
#[cfg(test)]
mod longest;
#[cfg(test)]
mod memory;
#[cfg(test)]
mod sockets;
#[cfg(test)]
mod streams;
#[cfg(test)]
mod turns;
