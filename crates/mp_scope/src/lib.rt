//! Where names, types and headings are looked up, and the record of what was asked.
//!
//! `Scope` is what the rules of the language ask: what a name is at a place, the shape of a type, the heading of a block,
//! and whether a function is ever assigned. `TableScope` answers by the tables of blocks, and gives exactly the answers of
//! the definitions in `mp_tables`; it tells no trace. `Asker` passes each question on to another scope, and keeps it with
//! its answer. `Tables` holds one table a block, found by its path. It stands on `mp_tables` and `mp_types`, and judges
//! nothing.
#![tactic(auto)]

mod asker;
pub mod examples;
mod given;
pub mod laws;
mod scope;
mod search;
mod sight;
mod table_scope;
mod tables;

pub use asker::Asker;
pub use scope::Scope;
pub use table_scope::TableScope;
pub use tables::Tables;
