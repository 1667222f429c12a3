//! The extractor: the rule that a certificate of an upper bound gives.
ghost use Rattle.re_cert.specs.Stages.{stages_of};
ghost use Rattle.re_extract.specs.Seen.{AreViews};
ghost use Rattle.re_labels.specs.declared.sides.Degrees.{Degrees};
ghost use Rattle.re_laws.specs.Extracted.{IsUpperBound, extracted};
ghost use Rattle.re_pool.specs.Pools.{IsPool, Keeps, tree_at};
ghost use Rattle.re_problem.specs.NamedProblems.{unnamed};
ghost use Rattle.re_laws.specs.AllViews.{all_views};
ghost use Rattle.re_laws.specs.Trees.{IsView, Tree};
ghost use Rattle.std.specs.Prelude.{◌<◌, ◌≡◌, IfOk, List, length, map, ℕ};

use crate::extracting::labels_of;
use crate::views::placed;
use re_cert::Certificate;
use re_labels::{NoMemory, PortLabels, Side};
use re_laws::all_views;
use re_pool::{NodeId, Pool, Rule};
use std::marker::Model;

/// The algorithm of a valid certificate of an upper bound. Contracts see the certificate.
#[derive(Drop)]
pub struct Extractor {
    certificate: Certificate,
}

impl Model for Extractor {
    ghost use Rattle.re_cert.specs.Bounds.{Bound};
    ghost use Rattle.re_cert.specs.Stages.{stages_of};
    ghost use Rattle.re_laws.specs.Extracted.{IsUpperBound};
    ghost use Rattle.re_problem.specs.NamedProblems.{unnamed};

    ghost Value = { Bound };

    ghost view = { λ e. e.certificate };

    ghost invariant = { λ e. IsUpperBound (unnamed e.certificate.first) (stages_of e.certificate.steps) };
}

impl Extractor {
    /// The extractor of a certificate that is valid and of an upper bound, which the verdict of `re_check::check` tells
    /// (`re_check::upper_steps`).
    pub fn new(certificate: Certificate) -> Extractor
        requires { IsUpperBound (unnamed certificate.first) (stages_of certificate.steps) }
        ensures { result ≡ certificate }
    {
        Extractor { certificate }
    }

    /// Its certificate.
    pub fn certificate(&self) -> &Certificate
        ensures certificate { result.now ≡ self.now }
        ensures bound { IsUpperBound (unnamed self.now.first) (stages_of self.now.steps) }
    {
        &self.certificate
    }

    /// What the algorithm gives at the view of this number, which is an active view with as many rounds as the certificate has steps.
    /// All numbers of the pool stay what they are, also without memory; it may hold more of them.
    ///
    /// It goes level by level: from the views of a level those of the neighbours are made, each different one once, and from their
    /// labels those of the level. So its cost is that of the different views, times the ports: on a path at most one more on each
    /// level than on the one before.
    pub fn extract(&mut self, pool: &mut Pool, view: NodeId) -> Result<PortLabels, NoMemory>
        requires held { view < length pool.old }
        requires view { IsView self.old.first.active.degree self.old.first.passive.degree (length self.old.steps) (tree_at pool.old view) }
        ensures labels { IfOk result (λ labels. labels ≡ extracted (unnamed self.old.first) (stages_of self.old.steps) (tree_at pool.old view)) }
        ensures same { self.new ≡ self.old }
        ensures keeps { Keeps pool.old pool.new }
        ensures pool { IsPool pool.new }
    {
        let mut answers = self.extract_all(pool, &[view])?;
        match answers.pop() {
            Some(labels) => Ok(labels),
            None => unreachable!(),
        }
    }

    // The same at the views of these numbers, in their order.
    fn extract_all(
        &mut self,
        pool: &mut Pool,
        views: &[NodeId],
    ) -> Result<Vec<PortLabels>, NoMemory>
        requires { AreViews pool.old self.old.first.active.degree self.old.first.passive.degree (length self.old.steps) views.now }
        ensures labels { IfOk result (λ answers. answers.items ≡ map (λ id. extracted (unnamed self.old.first) (stages_of self.old.steps) (tree_at pool.old id)) views.now) }
        ensures same { self.new ≡ self.old }
        ensures keeps { Keeps pool.old pool.new }
        ensures pool { IsPool pool.new }
    {
        labels_of(
            self.certificate.first(),
            self.certificate.steps(),
            pool,
            views,
        )
    }

    /// What the algorithm gives at all active views of its radius, in their order (`re_laws::all_views`). Of the pool holds what
    /// `extract` says. The views of each level are looked at once each, as there.
    pub fn answers(&mut self, pool: &mut Pool) -> Result<Vec<PortLabels>, NoMemory>
        ensures answers { IfOk result (λ answers. answers.items ≡ map (extracted (unnamed self.old.first) (stages_of self.old.steps))
            (all_views self.old.first.active.degree self.old.first.passive.degree (length self.old.steps))) }
        ensures same { self.new ≡ self.old }
        ensures keeps { Keeps pool.old pool.new }
        ensures pool { IsPool pool.new }
    {
        let _pool = pool.len();
        let degrees = self.certificate.first().degrees();
        let radius = self.certificate.steps().len() as u8;
        let views = all_views(pool.alloc(), degrees, Side::Active, radius)?;
        let ids = placed(pool, views.as_slice())?;
        self.extract_all(pool, ids.as_slice())
    }
}

impl Rule for Extractor {
    ghost degrees = { λ e. record { active = e.first.active.degree; passive = e.first.passive.degree } };

    ghost radius = { λ e. length e.steps };

    ghost answer = { λ e. extracted (unnamed e.first) (stages_of e.steps) };

    fn labels(&mut self, pool: &mut Pool, view: NodeId) -> Result<PortLabels, NoMemory> {
        self.extract(pool, view)
    }
}
