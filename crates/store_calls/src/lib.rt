// The calls of several stores in one run, each store in its part of the lent tables, and one limit on the changes that
// all of them remember.
#![tactic(auto)]

mod guard; // guard.rt: the calls of one store that one loop answers
pub mod serving; // serving.rt: every call of a list
