//! Tests of the upper floors: worked runs of the top call, in each mode and by orders, with faults and limits, and a session's drain in
//! one call. What the calls answer is in their contracts; more runs stand in `tests/runs`.
#![tactic(auto)]

#[cfg(test)]
mod by_order;
#[cfg(test)]
mod checked;
#[cfg(test)]
mod drained;
#[cfg(test)]
mod files;
#[cfg(test)]
mod judging;
#[cfg(test)]
mod runs;
#[cfg(test)]
mod scripts;
#[cfg(test)]
mod sent;
#[cfg(test)]
mod told;
