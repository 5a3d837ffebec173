//! Why the calls of this project are refused, and the limits at which they are.
//!
//! A [`Refusal`] is the one answer of every call that may fail, whatever crate it is of; damage of a hive goes on with
//! the hive's number and a [`Cause`]. [`limits`] names each limit of the project once.
//!
//! What is promised: each refusal prints its stated text, and what becomes a refusal by `?` becomes the stated one.
//! Memory that was not given is `NoMemory`. A part of a hive may report damage without knowing the hive's number. Such
//! damage names hive 0, until a caller that knows the number puts it in.
#![tactic(auto)]

pub mod limits;
mod refusal;

pub use refusal::{Cause, Refusal};
