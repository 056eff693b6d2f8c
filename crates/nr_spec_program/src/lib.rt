//! What has to be believed about what the program does: the plan of each request, how a run follows it, and the words
//! in which the laws of runs speak. The definitions stand in `specs/`, and there is no code.
#![tactic(auto)]
