//! Tests of `path_within`: calls that allocate, compared with calls that write to buffers, and
//! tables of requests and roots.
mod bounds;
mod made;
mod requests;
mod roots;
