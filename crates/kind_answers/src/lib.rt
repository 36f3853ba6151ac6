// The Gaussian integers and the bit polynomials at their corners, and relations reduced over each, as tests.
#![tactic(auto)]

#[cfg(test)]
mod bits;
#[cfg(test)]
mod gaussian;
#[cfg(test)]
mod rows;
