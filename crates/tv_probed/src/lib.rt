//! A proxied machine with the worker of one of its devices, a probe, for the tests of `tv_core`: no more than tests. What the worker
//! keeps of its device is what the state of the machine has, by the law of every core, so each call is made exactly where it may be.
#![tactic(auto)]

#[cfg(test)]
mod calls;
#[cfg(test)]
mod probed;
#[cfg(test)]
mod tests;
