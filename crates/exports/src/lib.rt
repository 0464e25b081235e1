// The calls for software that is not written in Rattle: C, Rust and whatever can call C. Each list is a pointer and a length. A call
// answers the number of the refusal, 0 where none applies, since C has no Result, and its figures go to lent lists; a thin layer above the
// calls of the other crates, which relies on their promises alone. include/dca.h says the same to a programmer in C.
// A call that does more than hand its lists on has a second function beside it, `.._into`, for `?` wants a function that answers a Result.
// Where one list alone is judged by its length it is one `if`: a function for it would be as long at the call, and is no plainer.
#![tactic(auto)]

mod floats;
mod images;
mod jobs;
mod networks;
mod storing;

pub use floats::{dca_float_report, dca_nearest};
pub use images::{dca_read, dca_report, dca_write};
pub use jobs::{dca_account, dca_class_account, dca_hot_list, dca_rank};
pub use networks::{
    dca_bands, dca_gabriel, dca_grid_bishop, dca_grid_queen, dca_grid_rook, dca_join_table,
};
