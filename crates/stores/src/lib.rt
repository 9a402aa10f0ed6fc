// Several stores in one run: up to eight graphs with their histories, each in its part of the lent tables, and one
// limit on the changes remembered by all.
#![tactic(auto)]

mod starts; // starts.rt: the start images, one after another
mod refusals; // refusals.rt: whether a list is refused
mod opening; // opening.rt: every store before the first call
mod saving; // saving.rt: every end image
pub mod run; // run.rt: the whole list
