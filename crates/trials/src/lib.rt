#![tactic(auto)]

// Tests of the engine's crates, in a crate of their own.
#[cfg(test)]
mod bars;
#[cfg(test)]
mod comparing;
#[cfg(test)]
mod editing;
#[cfg(test)]
mod making;
#[cfg(test)]
mod searching;
#[cfg(test)]
mod settling;
#[cfg(test)]
mod verdicts;
