//! Tests of schemas and data by calls that no line of a sheet can say: builders, errors and their codes, drafts at their limit,
//! and public items that no other test names.
#![tactic(auto)]

#[cfg(test)]
mod builders;
#[cfg(test)]
mod codes;
#[cfg(test)]
mod data;
#[cfg(test)]
mod name_order;
#[cfg(test)]
mod surface;
