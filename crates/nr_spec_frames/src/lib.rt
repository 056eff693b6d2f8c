//! What has to be believed about frames between neighbours: what stands in a frame and in a file of frames, their one
//! spelling and their reading with the first malformed field, what a frame shows of a log, what a network makes of a
//! frame, and what it means that receipts stand among what was sent. The definitions stand in `specs/`; their laws are
//! those of `nr_laws_frames`.
#![tactic(auto)]
