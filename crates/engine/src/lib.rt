// The engine: a list of calls on lent words, from the refusals of the list to the end image.
#![tactic(auto)]

pub mod list_refusal; // list_refusal.rt: why a list is refused
pub mod refusals; // refusals.rt: whether it is
pub mod begin; // begin.rt: the state before the first call
pub mod step; // step.rt: one call
pub mod calls; // calls.rt: every call of a list
pub mod run; // run.rt: the whole list
