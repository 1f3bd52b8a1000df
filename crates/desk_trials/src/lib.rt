//! Tests of hosts: gates that hold runs back, hands that are missed, and runs in two threads that wait for one another. No line
//! of a file of cases can say them.
#![tactic(auto)]

#[cfg(test)]
mod gates;
#[cfg(test)]
mod hosts;
#[cfg(test)]
mod meetings;
