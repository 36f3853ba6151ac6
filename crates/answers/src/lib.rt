// Worked examples of the other crates, as tests.
#![tactic(auto)]

#[cfg(test)]
mod files;
#[cfg(test)]
mod numbers;
#[cfg(test)]
mod reductions;
#[cfg(test)]
mod texts;
