//! The slow program beside the definitions: the reply of a call, computed over a plain list of records.
mod every;
mod iterate;
mod lists;
mod moves;
mod one;
mod planned;
mod values;

pub use every::reply;
