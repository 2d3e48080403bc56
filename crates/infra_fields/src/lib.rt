//! The fields of an infrastructure's file: what each reads as, or its first
//! fault, and the texts of faults.
#![tactic(auto)]

mod fault_texts;
mod faults;
mod fields;
mod file_values;
mod words;

pub use fault_texts::fault_text;
pub use faults::{InfraFault, What};
pub use fields::{
    found, id, items_in, known, limit, limited, list, metres, new_id, not_negative, number, object,
    read, rounded, text, text_in,
};
pub use file_values::{Half, QuotedFile};
pub use words::{
    Port, applies, direction, end, group_named, kind_named, port_name, port_within, ports_of,
};
