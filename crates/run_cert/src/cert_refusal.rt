use std::alloc::AllocError;
use thiserror::Error;

/// Why bytes are not a certificate.
#[derive(Debug, Drop, Error)]
pub enum CertRefusal {
    /// The line, from 1, and the code. Code 21 is the first invalid line of the head; for a
    /// missing line it is the number that the line would have. Code 22 is the last line of the
    /// head, if it declares more bytes of input than follow.
    #[error("line {0} is refused by code {1}")]
    Malformed(u64, u32),
    #[error("out of memory")]
    OutOfMemory,
}

impl From<AllocError> for CertRefusal {
    ghost use Rattle.std.specs.Prelude.{◌≡◌};
    ghost use Rattle.run_cert.specs.declared.cert_refusal.CertRefusal.TheVariants.{OutOfMemory};

    ghost from_gives = { λ _ refusal. refusal ≡ OutOfMemory };

    fn from(_error: AllocError) -> CertRefusal {
        CertRefusal::OutOfMemory
    }
}
