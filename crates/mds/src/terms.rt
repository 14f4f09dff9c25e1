//! NMIs, datastreams, dates, moments, quality methods, reasons, readings, details of a meter and events.

pub use mds_terms::{
    Day, Details, Event, Length, Mark, Moment, Nmi, Quality, Reading, Reason, Stream, Suffix,
    TransCode, Weekday,
};
