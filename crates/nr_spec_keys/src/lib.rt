//! What has to be believed about one-time keys: the secrets and public digests of a leaf, the tree over the
//! leaves, and when a signature is signed under a root. The definitions stand in `specs/`; this crate has no
//! code.
#![tactic(auto)]
