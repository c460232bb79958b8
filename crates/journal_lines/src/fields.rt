// A call's fields: which each call has, in one table, and of which kinds they are.
mod calls;
mod kinds;
mod words;

pub use calls::{FieldsUse, of_fields};
pub use kinds::{Field, FilterTest, KeyedField, NumberTest, TextListTest, TextTest};
