// The writers by kind of record.
pub mod branches;
pub mod generators;
