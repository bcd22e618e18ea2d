//! The cases of `gf256`, `gf_lanes` and `cauchy_code`: numbers that were computed by hand or by another
//! program, in tables.
#![tactic(auto)]

#[cfg(test)]
mod codes;
#[cfg(test)]
mod field;
#[cfg(test)]
mod lanes;
#[cfg(test)]
mod rebuilding;
#[cfg(test)]
mod telling;
