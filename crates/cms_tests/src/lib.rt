//! The tests, on public calls only; there is nothing here for a program. Those of `cms_tlv` are in
//! `elements`, those of the parts of records in `parts`, and those of messages beside these.
//!
//! A case has the name and the octets of the test vector that it comes from, and so has what it
//! expects.
#![tactic(auto)]

#[cfg(test)]
mod asserts;
#[cfg(test)]
mod cert_ids;
#[cfg(test)]
mod changes;
#[cfg(test)]
mod checks;
#[cfg(test)]
mod commands;
#[cfg(test)]
mod comparisons;
#[cfg(test)]
mod conversions;
#[cfg(test)]
mod converted;
#[cfg(test)]
mod countersignatures;
#[cfg(test)]
mod covers;
#[cfg(test)]
mod digests_given;
#[cfg(test)]
mod elements;
#[cfg(test)]
mod example;
#[cfg(test)]
mod failing;
#[cfg(test)]
mod faults;
#[cfg(test)]
mod following;
#[cfg(test)]
mod json;
#[cfg(test)]
mod large_sets;
#[cfg(test)]
mod listings;
#[cfg(test)]
mod long_content;
#[cfg(test)]
mod many;
#[cfg(test)]
mod messages;
#[cfg(test)]
mod parts;
#[cfg(test)]
mod pieces;
#[cfg(test)]
mod records;
#[cfg(test)]
mod rests;
#[cfg(test)]
mod rows;
#[cfg(test)]
mod samples;
#[cfg(test)]
mod signers;
#[cfg(test)]
mod streams;
#[cfg(test)]
mod time_stamps;
