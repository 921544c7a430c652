//! Records, alerts and faults of TLCP: read from octets and written to them.
#![tactic(auto)]

mod alert;
mod fault;
mod kind;
mod laws;
mod record;

pub use alert::{AlertEffect, AlertMessage, judge_alert, receive_alert};
pub use fault::{Alert, AlertLevel, Fault, Layer};
pub use kind::ContentKind;
pub use laws::{alerts_stand, bench_stands, numbers_stand, records_stand};
pub use record::{
    CONTENT_LIMIT, HEADER_SIZE, Incoming, PROTECTED_LIMIT, Record, read_record, record_limit,
    write_header, write_record,
};
