//! The list functions that the calls on parallel collections equal, in the words of the Scala API.
//!
//! They are definitions for contracts, in `specs/`: `Cuts` has the parts of a list by place, `Choices` what a test
//! chooses, `Searches` where a test passes, `Scans` lists made place by place, and `Groups` items by their keys. What std
//! has already is not defined again: `filter`, `map`, `flat_map`, `take`, `drop`, `slice_range`, `take_while`, `zip`,
//! `reverse`, `fold`, `find`, `position`, `list_any`, `list_all` and `count_by`.
//!
//! The functions of `laws` do nothing: their contracts are the laws and worked examples of those definitions, where a
//! reader could doubt one. Two small functions carry the indexes of the API over into places.
#![tactic(auto)]

mod laws;
mod places;

pub use laws::{cut_laws, fold_laws, group_laws, scan_laws, search_laws};
pub use places::{index_of, place_of};
