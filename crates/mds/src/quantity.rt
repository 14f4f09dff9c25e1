//! Quantities in millionths and units of measure.

pub use mds_quantity::{Quantity, QuantityFault, Unit, between, mean, write_millionths};
