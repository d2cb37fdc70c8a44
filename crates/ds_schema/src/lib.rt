//! Schemas, rows and keys.
#![tactic(auto)]

mod column_lists;
mod key;
mod order;
mod row;
mod schema;
mod schema_text;

pub use column_lists::laws::{lists_are_read, one_list_is_spelled, printed_lists_read_back};
pub use column_lists::{
    parse_keys, parse_name, parse_names, print_keys, print_names, read_keys, read_names,
};
pub use key::{Key, KeyList, compare_rows, key_cmp, key_equal};
pub use order::row_order_is_total;
pub use row::{Row, copy_row, project};
pub use schema::{Field, Schema, row_fits};
pub use schema_text::{
    SchemaFault, SchemaWhy, is_field_name, laws, parse_field, parse_kind, parse_schema,
    print_schema, read_schema, size_of,
};
