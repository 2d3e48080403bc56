//! Numbers of a JSON text as texts: all but 0 and whole numbers of 1 to 18 digits without
//! a leading zero stand between quotation marks, so that no reader makes a float of them,
//! and each gives its exact value.
#![tactic(auto)]

mod numbers;
mod quoting;
mod shares;
mod spellings;
mod values;

pub use quoting::{each_text_is_quoted, one_quoted_text, quote, runs_are_longest};
pub use values::{NotWhole, count_of, scaled, whole};
