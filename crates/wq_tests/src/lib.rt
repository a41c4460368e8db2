//! Tests of things that no script and no case shows, with devices, clients and launchers of their own, which are proved
//! to be lawful: devices that fail, looks that are open at the wrong time, and workers that run at the same time. Other
//! calls are tested in `tests/calls`, and worked examples are data: `tests/scripts` and `tests/cases`.
#![tactic(auto)]

#[cfg(test)]
mod desks;
#[cfg(test)]
mod device;
#[cfg(test)]
mod publications;
#[cfg(test)]
mod round;
#[cfg(test)]
mod served;
#[cfg(test)]
mod session;
#[cfg(test)]
mod tree;
#[cfg(test)]
mod workers;
#[cfg(test)]
mod world;
