//! Tests of the parts that records are put together from, and of sets, on public calls only.

mod assembled;
mod bits;
mod emitted;
mod fields;
mod parts;
mod records;
mod rows;
mod scalars;
mod sets;
mod sketches;
mod sources;
mod strings;
mod times;
