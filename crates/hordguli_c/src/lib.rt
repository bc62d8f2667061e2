//! The functions of the C library. The files `*_calls.rt` follow the sections of include/hordguli.h.
#![tactic(auto)]

mod arrays;
mod calls;
mod edge_calls;
mod flags;
mod level_calls;
mod line_calls;
mod options;
mod raw_box;
mod reason_calls;
mod row_calls;
mod runs;
mod segment_calls;
mod session_calls;
mod session_handle;
mod status;
mod table_calls;
mod tables_handle;
mod tables_object;
mod text_calls;
mod utf8;

pub use row_calls::row_is_line;
