//! What has to be believed about the words of the command line: which of them each command takes, and what it is
//! asked for by them. The definitions stand in `specs/`, and there is no code.
#![tactic(auto)]
