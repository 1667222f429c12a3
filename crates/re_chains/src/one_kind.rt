//! Chains of one kind: certificates on which words over chains go on.
ghost use Rattle.re_cert.specs.declared.certificate.Kind.TheVariants.{Lower, Upper};
ghost use Rattle.re_chains.specs.Chains.{IsSoundLower, IsSound, IsSoundUpper};
ghost use Rattle.std.specs.Prelude.{◌≡◌};

use re_cert::Certificate;

/// A chain of kind lower: a certificate of this kind, each step of which meets its clauses. END isn't asked for.
#[derive(Drop)]
pub struct LowerChain {
    /// The certificate with its steps.
    pub certificate: Certificate,
    ghost chain: { IsSoundLower certificate },
}

/// A chain of kind upper: a certificate of this kind, each step of which meets its clauses. END isn't asked for.
#[derive(Drop)]
pub struct UpperChain {
    /// The certificate with its steps.
    pub certificate: Certificate,
    ghost chain: { IsSoundUpper certificate },
}

impl LowerChain {
    /// The chain with these steps. It takes no memory.
    pub fn new(certificate: Certificate) -> LowerChain
        requires lower { certificate.kind ≡ Lower }
        requires sound { IsSound certificate }
        ensures { result.certificate ≡ certificate }
    {
        LowerChain { certificate }
    }
}

impl UpperChain {
    /// The chain with these steps. It takes no memory.
    pub fn new(certificate: Certificate) -> UpperChain
        requires upper { certificate.kind ≡ Upper }
        requires sound { IsSound certificate }
        ensures { result.certificate ≡ certificate }
    {
        UpperChain { certificate }
    }
}
