//! Authenticators.

ghost use Rattle.std.specs.Prelude.{◌≡◌};
ghost use Rattle.nr_spec_log.specs.Authenticator.{authenticator};
ghost use Rattle.nr_merkle.specs.Views.{signature_of};

use nr_chain::Digest;
use nr_merkle::Sig;

/// A signed statement that entry `seq` of the log of AS `asn` has this time, in microseconds, and this
/// chain value. `whole` is its spelling, the bytes that it was read from.
#[derive(Clone, Copy, Debug)]
pub struct Auth<'a> {
    pub asn: u32,
    pub seq: u64,
    pub time: u64,
    pub hash: Digest,
    pub sig: Sig<'a>,
    pub whole: &'a [u8],
    ghost spelled: { whole.now
        ≡ authenticator (record { asn = asn; seq = seq; time = time; hash = hash.0; sig = signature_of sig }) },
}
