//! What has to be believed about frames at a recorder: the frame that it makes of its log for a neighbour, what it makes
//! of bytes that came as a frame, and what it acknowledges. The definitions stand in `specs/`.
#![tactic(auto)]
