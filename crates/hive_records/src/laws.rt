//! What the definitions say, as contracts of functions without effect.
pub use crate::example_laws::{each_fault, each_kind, each_refusal, example, records_by_hand};
pub use crate::image_laws::{keys_are_local, nodes, one_tree, rows_are_encodable, stays};
pub use crate::joined_laws::{
    big_data_go_on, descriptors_go_on, keys_go_on, lists_go_on, values_go_on,
};
pub use crate::reading_laws::{follows, loops};
pub use crate::round_trip_laws::{
    big_again, cells_again, keys_again, lists_again, many_again, names_again, record_lengths,
    values_again, written_again,
};
