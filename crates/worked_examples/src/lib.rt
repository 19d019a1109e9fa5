//! Tests of what rows can't show: types, devices, streams and files. The crates `part_rows` and `run_rows` have the worked rows.
#![tactic(auto)]

#[cfg(test)]
mod devices;
#[cfg(test)]
mod faces;
#[cfg(test)]
mod numbers;
#[cfg(test)]
mod slots;
#[cfg(test)]
mod sure_run;
#[cfg(test)]
mod table;
#[cfg(test)]
mod word_tables;
