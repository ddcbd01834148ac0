// Examples of the parts, as tests.
#![tactic(auto)]

#[cfg(test)]
use interfaces::fault::{Cause, Fault};

#[cfg(test)]
mod faults;
#[cfg(test)]
mod layers;
#[cfg(test)]
mod memories;
#[cfg(test)]
mod sessions;
#[cfg(test)]
mod stamps;

// The answer to a call that the asked home itself refuses.
#[cfg(test)]
fn refused(cause: Cause, number: u16) -> Result<(), Fault> {
    Err(Fault::new(cause, number))
}
