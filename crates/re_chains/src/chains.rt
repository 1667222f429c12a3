//! Chains of either kind.
ghost use Rattle.re_cert.specs.declared.certificate.Kind.TheVariants.{Fixed};
ghost use Rattle.re_chains.specs.Chains.{IsSound, IsSoundChain};
ghost use Rattle.re_chains.specs.HeldBounds.{held_bound};
ghost use Rattle.std.specs.Prelude.{◌≡◌};

use crate::one_kind::{LowerChain, UpperChain};
use crate::sound::over_problems;
use re_cert::{Certificate, Kind};

/// A chain: of kind lower, for which a fixed point stands too, or of kind upper.
#[derive(Drop)]
pub enum Chain {
    Lower(LowerChain),
    Upper(UpperChain),
}

impl Chain {
    /// The chain with these steps. It takes no memory.
    pub fn new(certificate: Certificate) -> Chain
        requires open { certificate.kind ≡ Fixed → ⊥ }
        requires sound { IsSound certificate }
        ensures { held_bound result ≡ certificate }
    {
        match certificate.kind() {
            Kind::Lower => Chain::Lower(LowerChain::new(certificate)),
            Kind::Upper => Chain::Upper(UpperChain::new(certificate)),
            Kind::Fixed => unreachable!(),
        }
    }

    /// The certificate with its steps.
    pub fn certificate(&self) -> &Certificate
        ensures same { result.now ≡ held_bound self.now }
        ensures sound { IsSoundChain result.now }
    {
        let certificate = match self {
            Chain::Lower(chain) => &chain.certificate,
            Chain::Upper(chain) => &chain.certificate,
        };
        let _kind = certificate.kind();
        over_problems(certificate);
        certificate
    }
}
