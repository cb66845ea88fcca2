//! Tests of what is answered by calls that no line of a sheet can say: container files part by part, and with devices that fail;
//! errors and their codes; and a history of no schemas.
#![tactic(auto)]

#[cfg(test)]
mod answers;
#[cfg(test)]
mod certificates;
#[cfg(test)]
mod devices;
#[cfg(test)]
mod history;
#[cfg(test)]
mod judging_limits;
#[cfg(test)]
mod parts;
#[cfg(test)]
mod reading;
